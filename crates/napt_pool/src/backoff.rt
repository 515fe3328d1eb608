//! The waiting of a thread for another thread.

ghost use Rattle.std.specs.Prelude.{◌≡◌, ◌+◌, ◌≤◌, ◌<◌};
ghost use Rattle.napt_pool.specs.declared.backoff.BackoffStep.TheVariants.{Spin, Yield, Park};

use std::sync::Wait;
use std::thread::Parker;
use std::time::Duration;
use std::{hint, thread};

/// The number of first polls, each of which is followed by a spin.
const SPINS: u32 = 32;

/// The number of polls before the first sleep. All after the first 32 are followed by a yield.
const POLLS: u32 = 512;

/// The shortest sleep, in ns. The system decides how long it really is (about 50 µs on Linux).
const SHORTEST_SLEEP: u64 = 1;

/// The pause of a thread before it polls again.
#[derive(Debug, Clone, Copy, PartialEq, Eq)]
enum BackoffStep {
    Spin,
    Yield,
    Park,
}

impl BackoffStep {
    /// Returns the pause that follows this number of polls.
    const fn after(polls: u32) -> BackoffStep
        ensures spin { polls < 32 → result ≡ Spin }
        ensures yields { 32 ≤ polls → polls < 512 → result ≡ Yield }
        ensures park { 512 ≤ polls → result ≡ Park }
    {
        if polls < SPINS {
            BackoffStep::Spin
        } else if polls < POLLS {
            BackoffStep::Yield
        } else {
            BackoffStep::Park
        }
    }
}

/// One wait for another thread; each wait has a `Backoff` of its own.
///
/// First the thread spins between polls, then it yields to other threads, and then it sleeps. A
/// short wait costs little, and a long one leaves the processor to others.
#[derive(Drop)]
pub struct Backoff {
    polls: u32,
    parker: Parker,
}

impl Backoff {
    /// Returns the state at the beginning of a wait.
    pub const fn new() -> Backoff
        ensures { result.polls ≡ 0 }
    {
        Backoff {
            polls: 0,
            parker: Parker::new(),
        }
    }

    /// Pauses before the next poll: the first 32 pauses spin, the next 480 yield to other threads,
    /// and each later one is the system's shortest sleep.
    pub fn pause<R: Wait>(&mut self, rt: &R)
        ensures counted { self.old.polls < 512 → self.new.polls ≡ self.old.polls + 1 }
        ensures asleep { 512 ≤ self.old.polls → self.new.polls ≡ self.old.polls }
    {
        match BackoffStep::after(self.polls) {
            BackoffStep::Spin => hint::spin_loop(),
            BackoffStep::Yield => thread::yield_now(),
            BackoffStep::Park => self
                .parker
                .park_timeout(rt, Duration::from_nanos(SHORTEST_SLEEP)),
        }
        if self.polls < POLLS {
            self.polls += 1;
        }
    }
}

impl Default for Backoff {
    fn default() -> Backoff {
        Backoff::new()
    }
}
