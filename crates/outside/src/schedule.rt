//! When an object over memory fails.

ghost use Rattle.std.specs.Prelude.{◌≡◌, ◌==◌, ◌+◌, ◌-◌, ◌^◌, ◌≤◌, IsFalse, IsTrue, min};
ghost use Rattle.std.specs.List.{list_any};

/// The calls that fail, by their numbers from 1, and counts of the calls and faults so far.
#[derive(Debug, Drop)]
pub(crate) struct Schedule {
    fails: Vec<u64>,
    calls: u64,
    faults: u64,
}

impl Schedule {
    /// The schedule before the first call.
    pub(crate) fn new(fails: Vec<u64>) -> Schedule
        ensures { result ≡ record { fails = fails; calls = 0; faults = 0 } }
    {
        Schedule {
            fails,
            calls: 0,
            faults: 0,
        }
    }

    /// Counts a call, and tells whether it fails.
    pub(crate) fn fails_now(&mut self) -> bool
        ensures listed { result ≡ list_any (λ call. call == self.new.calls) self.old.fails.items }
        ensures fails { self.new.fails ≡ self.old.fails }
        ensures calls { self.new.calls ≡ min (self.old.calls + 1) (2 ^ 64 - 1) }
        ensures later { self.old.faults ≤ self.new.faults }
        ensures fault { IsTrue result → self.new.faults ≡ min (self.old.faults + 1) (2 ^ 64 - 1) }
        ensures fine { IsFalse result → self.new.faults ≡ self.old.faults }
    {
        self.calls = self.calls.saturating_add(1);
        let fails = self.fails.contains(&self.calls);
        if fails {
            self.faults = self.faults.saturating_add(1);
        }
        fails
    }
}
