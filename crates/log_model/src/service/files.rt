//! Calls on one object.

use super::*;

/// The bytes from a place on, at most so many.
fn piece(alloc: Global, bytes: &[u8], offset: u32, count: u32) -> Result<Vec<u8>, AllocError> {
    let mut out = Vec::new(alloc);
    let end = offset.saturating_add(count.min(8192));
    let mut at = 0u32;
    for byte in bytes {
        if offset <= at && at < end {
            out.push(*byte)?;
        }
        at = at.saturating_add(1);
    }
    Ok(out)
}

/// Puts bytes into a file from a place on, which lies in it.
pub fn overwrite(file: &mut Vec<u8>, offset: u32, bytes: &[u8]) {
    let mut at = offset as usize;
    for byte in bytes {
        if let Some(place) = file.get_mut(at) {
            *place = *byte;
        }
        at = at.saturating_add(1);
    }
}

impl Service<'_> {
    /// Cuts a file, or fills it with zeros.
    pub fn resize(&mut self, index: u32, size: u32) -> Result<(), AllocError> {
        if let Some(node) = self.array.node_mut(index) {
            if let Content::File(bytes) = &mut node.content {
                bytes.resize(size as usize, 0)?;
            }
        }
        Ok(())
    }

    pub fn set_attr(
        &mut self,
        node: Oid,
        mode: Option<u32>,
        size: Option<u32>,
    ) -> Result<Outcome, Stop> {
        let index = self.live(node)?;
        if let Some(size) = size {
            let now = length_of(self.file(node)?.as_slice());
            self.fits(size, now)?;
            self.resize(index, size)?;
        }
        if let Some(mode) = mode {
            if let Some(object) = self.array.node_mut(index) {
                object.attr.mode = mode;
            }
        }
        self.touch(index, size.is_some());
        self.attributes(index, &[index])
    }

    pub fn read_link(&self, node: Oid) -> Result<Outcome, Stop> {
        let index = self.live(node)?;
        let object = self.array.node(index).ok_or(Stop::Refused(STALE))?;
        let Content::Link(text) = &object.content else {
            return Err(Stop::Refused(NXIO));
        };
        let mut outcome = self.outcome(&[0], &[])?;
        put_opaque(&mut outcome.result, text.as_slice())?;
        Ok(outcome)
    }

    pub fn read(&self, file: Oid, offset: u32, count: u32) -> Result<Outcome, Stop> {
        let bytes = piece(self.alloc, self.file(file)?.as_slice(), offset, count)?;
        let mut outcome = self.attributes(file.index, &[])?;
        put_opaque(&mut outcome.result, bytes.as_slice())?;
        Ok(outcome)
    }

    pub fn write(&mut self, file: Oid, offset: u32, bytes: &[u8]) -> Result<Outcome, Stop> {
        let now = length_of(self.file(file)?.as_slice());
        if !bytes.is_empty() {
            let end = offset.saturating_add(length_of(bytes));
            self.fits(end.max(now), now)?;
            self.resize(file.index, end.max(now))?;
            if let Some(node) = self.array.node_mut(file.index) {
                if let Content::File(old) = &mut node.content {
                    overwrite(old, offset, bytes);
                }
            }
        }
        self.touch(file.index, true);
        self.attributes(file.index, &[file.index])
    }

    pub fn stat_fs(&self, node: Oid) -> Result<Outcome, Stop> {
        self.live(node)?;
        let left = self.most.saturating_sub(self.array.used()) / 512;
        self.outcome(&[0, 8192, 512, self.most / 512, left, left], &[])
    }
}
