//! The source of a run's inputs.

ghost use Rattle.std.specs.Prelude.{◌≡◌, ◌++◌, [], List, Option, false};
ghost use Rattle.napt_rules.specs.Prelude.{Arrival};
ghost use Rattle.napt_sequential.specs.Inputs.{NextInputPost};

use crate::input::Input;
use std::collections::VecDeque;

/// A source of inputs. A run reads them one at a time, until the end or the first fault.
pub trait InputSource {
    /// The reason why a source cannot return more inputs.
    type Fault: Drop;

    // Between the two states, the source returned these inputs, in this order.
    ghost hands: { Self → List Arrival → Self → Type 0 };

    // Between the two states, the source reported the end, or this fault.
    ghost ends: { Self → Option Self.Fault → Self → Type 0 };

    // The next call of `next` may have to wait for a device.
    ghost asks: { Self → Type 0 };

    /// Returns whether the next call of `next` may have to wait for a device.
    fn asks_device(&self) -> bool
        ensures { result ≡ false → ¬ asks self.now };

    /// Returns the next input, or `None` at the end. Its bytes may reuse the allocation of `spare`,
    /// whose contents are dropped. A run does not call this again after the end or a fault.
    fn next(&mut self, spare: Vec<u8>) -> Result<Option<Input>, Self::Fault>
        ensures { NextInputPost hands ends self.old result self.new };

    ghost hands_none: { (x : Self) → hands x [] x };

    ghost hands_more: { (x y z : Self) (xs ys : List Arrival) → hands x xs y → hands y ys z →
        hands x (xs ++ ys) z };
}

/// The fault of a source that never fails. It has no value.
#[derive(Drop)]
pub enum NoFault {}

impl InputSource for VecDeque<Input> {
    ghost use Rattle.std.{specs.Prelude.{◌≡◌, ◌++◌, false, refl}, proofs.Common.{ap, sym, ◌∙◌, append_assoc}};

    type Fault = NoFault;

    ghost hands = { λ queue inputs later. queue.items ≡ inputs ++ later.items };

    ghost ends = { λ queue fault later. queue.items ≡ [] };

    ghost asks = { λ queue. ⊥ };

    ghost hands_none = { λ x. refl };

    ghost hands_more = { λ x y z xs ys first second. first ∙ (ap (λ l. xs ++ l) second
        ∙ sym (append_assoc xs ys z.items)) };

    fn asks_device(&self) -> bool
        ensures { result ≡ false }
    {
        false
    }

    fn next(&mut self, _spare: Vec<u8>) -> Result<Option<Input>, NoFault> {
        Ok(self.pop_front())
    }
}
