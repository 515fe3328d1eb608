//! A gate that each worker asks before each step.

ghost use Rattle.std.specs.Prelude.{◌≡◌, Bool, true, false, IsTrue};

/// The largest number of times that a worker asks for one item.
const MOST_REQUESTS: u32 = 1_000_000;

/// A gate that each worker asks before each step. It delays workers, but affects no result.
pub trait Gate {
    /// True if `enter` always returns `true`.
    ghost is_open: { Bool };

    /// Returns whether a worker may do its next step, after `turn` steps (at most `u64::MAX`). If
    /// it may not, it asks again, at most 1,000,000 times for one item, and then stops.
    fn enter(&self, worker: u32, turn: u64) -> bool
        ensures { is_open ≡ true → IsTrue result };

    /// Receives the machine's size (`Machine::size`) after each step, for progress displays.
    fn observe(&self, _worker: u32, _size: u64) {}
}

/// A gate that is always open.
#[derive(Clone, Copy, Debug)]
pub struct OpenGate;

impl Gate for OpenGate {
    ghost is_open = { true };

    fn enter(&self, _worker: u32, _turn: u64) -> bool {
        true
    }
}

/// Asks the gate until it is open, at most 1,000,000 times, and returns whether it is open.
pub(crate) fn enter_gate<G: Gate>(gate: &G, worker: u32, turn: u64) -> bool
    ensures { G.is_open ≡ true → IsTrue result }
{
    for _ in 0..MOST_REQUESTS {
        if gate.enter(worker, turn) {
            return true;
        }
    }
    false
}
