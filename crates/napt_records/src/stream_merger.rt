//! The inputs of a run over captures that are read as they arrive.
ghost use Rattle.std.specs.Prelude.{option_to_list};
ghost use Rattle.napt_records.specs.RecordMerging.{TakesRecord};

use crate::stream::RecordStream;
use napt_capture::{CaptureFault, Record, Source};
use napt_sequential::{Input, InputSource};
use napt_wire::Side;
use std::alloc::Global;

/// A fault of one side's capture, which is malformed or could not be read.
#[derive(Clone, Copy, Debug, PartialEq, Eq)]
pub struct SideFault {
    pub side: Side,
    pub fault: CaptureFault,
}

/// Flags that are `true` for a capture that ends inside a record.
#[derive(Clone, Copy, Debug, PartialEq, Eq)]
pub struct CutFlags {
    pub inside: bool,
    pub outside: bool,
}

/// Removes and returns the earlier of two records with its side, or the inside record if both have
/// the same time.
#[inline(always)]
fn take_first(inside: &mut Option<Record>, outside: &mut Option<Record>) -> Option<(Side, Record)>
    ensures { TakesRecord (option_to_list inside.old) (option_to_list outside.old) result
        (option_to_list inside.new) (option_to_list outside.new) }
{
    let is_inside = match (&*inside, &*outside) {
        (Some(first), Some(other)) => first.time <= other.time,
        (first, _) => first.is_some(),
    };
    if is_inside {
        Some((Side::Inside, inside.take()?))
    } else {
        Some((Side::Outside, outside.take()?))
    }
}

/// Two captures that are merged into the inputs of a run while they arrive. Once the next record of
/// each side is known, the earlier one is returned, or the inside one if both have the same time.
#[derive(Drop)]
pub struct StreamMerger<'a, 'b, R: Source, Q: Source> {
    alloc: Global,
    inside: RecordStream<'a, R>,
    outside: RecordStream<'b, Q>,
    /// The record of each side that was read and has not been returned.
    inside_first: Option<Record>,
    outside_first: Option<Record>,
    /// The latest arrival time so far, in ns.
    clock: u64,
}

impl<'a, 'b, R: Source, Q: Source> StreamMerger<'a, 'b, R, Q> {
    ghost use Rattle.std.specs.Prelude.{◌≡◌, None};
    ghost use Rattle.napt_records.specs.StreamMergers.{IsMergerLive, AreSame, ReadsAheadOrMeets, TakesAny, cut_of};

    /// Returns a merger of these captures, whose headers have been read.
    pub fn new(
        alloc: Global,
        inside: RecordStream<'a, R>,
        outside: RecordStream<'b, Q>,
    ) -> StreamMerger<'a, 'b, R, Q>
        ensures inside { result.inside ≡ inside.entry }
        ensures outside { result.outside ≡ outside.entry }
        ensures inside_first { result.inside_first ≡ None }
        ensures outside_first { result.outside_first ≡ None }
        ensures clock { result.clock ≡ 0 }
    {
        StreamMerger {
            alloc,
            inside,
            outside,
            inside_first: None,
            outside_first: None,
            clock: 0,
        }
    }

    /// Returns whether each capture ends inside a record: `false` until its end is reached.
    pub fn cuts(&self) -> CutFlags
        ensures inside { result.inside ≡ cut_of self.now.inside }
        ensures outside { result.outside ≡ cut_of self.now.outside }
    {
        CutFlags {
            inside: self.inside.cut().unwrap_or(false),
            outside: self.outside.cut().unwrap_or(false),
        }
    }

    /// Returns the captures.
    pub fn into_streams(self) -> (RecordStream<'a, R>, RecordStream<'b, Q>)
        ensures inside { result.0 ≡ self.entry.inside }
        ensures outside { result.1 ≡ self.entry.outside }
    {
        (self.inside, self.outside)
    }

    /// Reads until the next record of each side is known. The first record read reuses `spare`.
    #[inline(always)]
    fn read_ahead(&mut self, spare: &mut Vec<u8>) -> Result<(), SideFault>
        ensures same { AreSame self.old self.new }
        ensures looks { IsMergerLive self.old → ReadsAheadOrMeets self.old result self.new }
    {
        if let Err(fault) = self
            .inside
            .read_ahead(self.alloc, &mut self.inside_first, spare)
        {
            return Err(SideFault {
                side: Side::Inside,
                fault,
            });
        }
        match self
            .outside
            .read_ahead(self.alloc, &mut self.outside_first, spare)
        {
            Ok(()) => Ok(()),
            Err(fault) => Err(SideFault {
                side: Side::Outside,
                fault,
            }),
        }
    }

    /// Removes and returns the next input from the records that were read.
    #[inline(always)]
    fn pop(&mut self) -> Option<Input>
        ensures takes { TakesAny self.old.inside_first self.old.outside_first self.old.clock
            result self.new.inside_first self.new.outside_first self.new.clock }
        ensures inside { self.new.inside ≡ self.old.inside }
        ensures outside { self.new.outside ≡ self.old.outside }
    {
        let (side, record) = take_first(&mut self.inside_first, &mut self.outside_first)?;
        self.clock = self.clock.max(record.time);
        Some(Input {
            side,
            time: record.time,
            clock: self.clock,
            bytes: record.bytes,
        })
    }
}

impl<'a, 'b, R: Source, Q: Source> InputSource for StreamMerger<'a, 'b, R, Q> {
    ghost use Rattle.std.specs.Prelude.{◌≡◌, false, true};
    ghost use Rattle.napt_records.specs.StreamMergers.{AsksDevice, MergeEndsWith, HandsOutInputs};
    ghost use Rattle.napt_records.specs.HandedLaws.{HandsOut-more, HandsOut-none};

    type Fault = SideFault;

    ghost hands = { λ old inputs new. HandsOutInputs old inputs new };

    ghost ends = { λ old fault new. MergeEndsWith old fault new };

    ghost asks = { λ both. AsksDevice both };

    ghost hands_none = { λ x. HandsOut-none x };

    ghost hands_more = { λ x y z xs ys first second. HandsOut-more x y z xs ys first second };

    fn asks_device(&self) -> bool
        ensures quiet { result ≡ false → ¬ AsksDevice self.now }
        ensures needed { result ≡ true → AsksDevice self.now }
    {
        self.inside.asks_device(&self.inside_first) || self.outside.asks_device(&self.outside_first)
    }

    #[inline(always)]
    fn next(&mut self, spare: Vec<u8>) -> Result<Option<Input>, SideFault> {
        let mut spare = spare;
        self.read_ahead(&mut spare)?;
        Ok(self.pop())
    }
}
