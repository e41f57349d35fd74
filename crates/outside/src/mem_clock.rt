//! A clock over memory.

ghost use Rattle.std.specs.Prelude.{◌≡◌, List, Some, All, IsTrue};
ghost use Rattle.nfs2_types.specs.Times.{is_time};

use crate::clock::Clock;
use nfs2_types::Time;
use std::collections::VecDeque;

/// A clock over memory, which answers its times in turn, then the last one again, and zero where it has none.
#[derive(Debug, Drop)]
pub struct MemClock {
    times: VecDeque<Time>,
    ghost all_times: { All (λ time. IsTrue (is_time time)) times.items },
}

impl MemClock {
    /// The clock of these times. It takes no memory.
    pub fn new(times: Vec<Time>) -> MemClock
        requires { All (λ time. IsTrue (is_time time)) times.items }
        ensures { ⟦<MemClock as Clock>⟧.times result ≡ Some times.items }
    {
        MemClock {
            times: VecDeque::from_vec(times),
        }
    }
}

impl Clock for MemClock {
    ghost times = { λ s. Some s.times.items };

    fn now(&mut self) -> Time {
        if 1 < self.times.len()
            && let Some(time) = self.times.pop_front()
        {
            return time;
        }
        match self.times.front() {
            Some(time) => *time,
            None => Time { secs: 0, micros: 0 },
        }
    }
}
