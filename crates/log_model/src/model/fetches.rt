//! Replicas that are given up, and rebuilt from others.

use super::{Model, Seat};
use crate::holdings::Live;
use crate::items::Rebuilding;
use crate::objects::Digest;
use std::alloc::AllocError;

impl Model {
    fn rebuilding_mut(&mut self, r: u32) -> Option<&mut Rebuilding> {
        match self.seats.get_mut(r as usize) {
            Some(Seat::Rebuilding(rebuilding)) => Some(rebuilding),
            _ => None,
        }
    }

    /// A replica keeps its array and nothing else.
    pub fn reboot(&mut self, r: u32) -> Result<(), AllocError> {
        self.ballots.withdraw(r);
        let alloc = self.alloc;
        if let Some(seat) = self.seats.get_mut(r as usize) {
            let array = match seat {
                Seat::Live(live) => live.array.clone()?,
                Seat::Rebuilding(rebuilding) => rebuilding.array.clone()?,
            };
            *seat = Seat::Rebuilding(Rebuilding::new(alloc, array)?);
        }
        Ok(())
    }

    /// A replica takes an item from the first of the others that gives what it wants. Whether one does.
    fn get(&mut self, r: u32, wanted: (u32, u32, Digest)) -> Result<bool, AllocError> {
        let (alloc, stable) = (self.alloc, self.ballots.stable);
        let (level, number, _) = wanted;
        for source in 0..self.count() {
            let item = match self.live(source) {
                Some(live) => live.serve(stable, level, number)?,
                None => None,
            };
            if let (Some(item), Some(rebuilding)) = (item, self.rebuilding_mut(r)) {
                if rebuilding.take(alloc, wanted, item)? {
                    return Ok(true);
                }
            }
        }
        Ok(false)
    }

    /// A replica gets an item that it lacks. Whether it did; None where it lacks nothing.
    fn get_next(&mut self, r: u32) -> Result<Option<bool>, AllocError> {
        let alloc = self.alloc;
        let Some(rebuilding) = self.rebuilding_mut(r) else {
            return Ok(Some(false));
        };
        let wanted = rebuilding.next_item(alloc)?;
        match wanted {
            Some(wanted) => Ok(Some(self.get(r, wanted)?)),
            None => Ok(None),
        }
    }

    /// Gets at most so many items, and not more than there are.
    fn get_all(&mut self, r: u32, n: u32) -> Result<(), AllocError> {
        for _ in 0..n.min(32) {
            if self.get_next(r)? != Some(true) {
                return Ok(());
            }
        }
        Ok(())
    }

    /// Where nothing is missing, the replica is live again. Else it goes on later.
    fn finish(&mut self, r: u32) -> Result<(), AllocError> {
        let (alloc, place, most) = (self.alloc, self.ballots.stable, self.limits.most);
        let Some(rebuilding) = self.rebuilding_mut(r) else {
            return Ok(());
        };
        let (nodes, objects) = rebuilding.counts();
        if rebuilding.next_item(alloc)?.is_some() {
            let got = nodes.saturating_add(objects);
            let line = format!(in alloc; "fetching {r} {place} {got}\n")?;
            return self.print(line);
        }
        let array = rebuilding.changed()?;
        if !array.is_valid(most) {
            rebuilding.forget();
            let line = format!(in alloc; "fetching {r} {place} 0\n")?;
            return self.print(line);
        }
        if let Some(seat) = self.seats.get_mut(r as usize) {
            *seat = Seat::Live(Live::new(alloc, array, place)?);
        }
        let line = format!(in alloc; "rebuilt {r} {place} {nodes} {objects}\n")?;
        self.print(line)
    }

    /// A replica gets up to n items of what it lacks towards the stable place.
    pub fn fetch(&mut self, r: u32, n: u32) -> Result<(), AllocError> {
        let (place, root) = (self.ballots.stable, self.ballots.root);
        let Some(rebuilding) = self.rebuilding_mut(r) else {
            return self.idle(r, "not-rebuilding");
        };
        rebuilding.aim_at(place, root);
        self.get_all(r, n)?;
        self.finish(r)
    }
}
