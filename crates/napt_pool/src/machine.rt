//! The machine that a worker runs.

ghost use Rattle.std.specs.Prelude.{◌≡◌, MatchResult};

use std::alloc::{AllocError, Global};

/// A state that answers items one at a time. A step is a function of the state and the item.
pub trait Machine: Send + Drop {
    type Item: Send + Drop;

    type Answer: Send + Drop;

    /// The state after a step on an item.
    ghost stepped: { Self → Self.Item → Self };

    /// The answer to an item.
    ghost reply: { Self → Self.Item → Self.Answer };

    /// Steps on the item and returns its answer. If memory is refused, the state is unchanged.
    fn step(&mut self, alloc: Global, item: Self::Item) -> Result<Self::Answer, AllocError>
        ensures { MatchResult result (λ answer. (answer ≡ reply self.old item)
            × (self.new ≡ stepped self.old item)) (λ _. self.new ≡ self.old) };

    /// Returns the size of the state, for progress displays. No contract mentions it.
    fn size(&self) -> u64 {
        0
    }
}
