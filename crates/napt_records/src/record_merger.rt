//! Merges the records of both captures by arrival time into the inputs of a run.
ghost use Rattle.std.specs.Prelude.{◌≡◌, ◌++◌, [], length, All, IfOk};
ghost use Rattle.napt_capture.specs.Text.{IsWritable};
ghost use Rattle.napt_sequential.specs.Inputs.{InputIsTaken};
ghost use Rattle.napt_records.specs.{Output.IsTimely, RecordMerging.{TakesRecord, is_outside_next, merged_inputs}};

use napt_capture::Record;
use napt_sequential::{Input, InputSource, NoFault};
use napt_wire::Side;
use std::alloc::{AllocError, Global};
use std::collections::VecDeque;
use std::marker::Model;

/// Returns whether the outside record is next: it is earlier, or there is no inside one.
fn is_outside_next(inside: &VecDeque<Record>, outside: &VecDeque<Record>) -> bool
    ensures { result ≡ is_outside_next inside.now.items outside.now.items }
{
    let Some(first) = inside.front() else {
        return true;
    };
    let Some(other) = outside.front() else {
        return false;
    };
    other.time < first.time
}

/// Removes and returns the next record with its side, or `None` if both sides are empty.
fn take_next(
    inside: &mut VecDeque<Record>,
    outside: &mut VecDeque<Record>,
) -> Option<(Side, Record)>
    ensures { TakesRecord inside.old.items outside.old.items result inside.new.items
        outside.new.items }
{
    if is_outside_next(inside, outside) {
        let record = outside.pop_front()?;
        return Some((Side::Outside, record));
    }
    let record = inside.pop_front()?;
    Some((Side::Inside, record))
}

/// The records of both captures, which are merged as a run reads them. Captures need not be sorted:
/// the order of each is preserved. If two records have the same time, the inside one comes first.
#[derive(Drop)]
pub struct RecordMerger {
    inside: VecDeque<Record>,
    outside: VecDeque<Record>,
    /// The latest arrival time so far, in ns.
    clock: u64,
}

impl Model for RecordMerger {
    ghost use Rattle.std.specs.Prelude.{List};
    ghost use Rattle.napt_rules.specs.Prelude.{Arrival};
    ghost use Rattle.napt_records.specs.RecordMerging.{merged_from};

    ghost Value = { List Arrival };

    ghost view = { λ merged. merged_from merged.inside.items merged.clock merged.outside.items };
}

impl RecordMerger {
    /// Returns a merger of the records of both captures. Their bytes are moved.
    pub fn new(inside: Vec<Record>, outside: Vec<Record>) -> RecordMerger
        ensures merged { result ≡ merged_inputs inside.items outside.items }
        ensures timely { All IsWritable inside.items → All IsWritable outside.items →
            All IsTimely result }
    {
        RecordMerger {
            inside: VecDeque::from(inside),
            outside: VecDeque::from(outside),
            clock: 0,
        }
    }
}

impl RecordMerger {
    /// Returns the number of remaining inputs.
    fn count(&self) -> usize
        ensures { result ≡ length self.now }
    {
        self.inside.len() + self.outside.len()
    }

    /// Removes and returns the next input, or `None` at the end.
    fn pop(&mut self) -> Option<Input>
        ensures { InputIsTaken self.old result self.new }
    {
        let (side, record) = take_next(&mut self.inside, &mut self.outside)?;
        self.clock = self.clock.max(record.time);
        Some(Input {
            side,
            time: record.time,
            clock: self.clock,
            bytes: record.bytes,
        })
    }
}

impl InputSource for RecordMerger {
    ghost use Rattle.std.{specs.Prelude.{◌≡◌, ◌++◌, false, refl}, proofs.Common.{ap, sym, ◌∙◌, append_assoc}};

    type Fault = NoFault;

    ghost hands = { λ merged inputs later. merged ≡ inputs ++ later };

    ghost ends = { λ merged fault later. merged ≡ [] };

    ghost asks = { λ merged. ⊥ };

    ghost hands_none = { λ x. refl };

    ghost hands_more = { λ x y z xs ys first second. first ∙ (ap (λ l. xs ++ l) second
        ∙ sym (append_assoc xs ys z)) };

    fn asks_device(&self) -> bool
        ensures { result ≡ false }
    {
        false
    }

    fn next(&mut self, _spare: Vec<u8>) -> Result<Option<Input>, NoFault> {
        Ok(self.pop())
    }
}

/// Merges the records of both captures into the inputs of a run, in the order of [`RecordMerger`].
/// Moves the bytes without copying them. Fails only if memory is refused.
pub fn merge(
    alloc: Global,
    inside: Vec<Record>,
    outside: Vec<Record>,
) -> Result<Vec<Input>, AllocError>
    ensures merged { IfOk result (λ inputs. inputs.items ≡ merged_inputs inside.items outside.items) }
    ensures timely { All IsWritable inside.items → All IsWritable outside.items →
        IfOk result (λ inputs. All IsTimely inputs.items) }
{
    let mut merged = RecordMerger::new(inside, outside);
    let mut inputs = Vec::with_capacity(alloc, merged.count())?;
    while let Some(input) = merged.pop() {
        inputs.push(input)?;
    }
    Ok(inputs)
}
