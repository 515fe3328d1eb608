//! A comparison of runs over the same captures under two configurations.

use crate::lines::{leaves_with, side_column};
use crate::packet_fields::{add_arrival, add_packet, is_end_of_arrival};
use crate::packet_selection::PacketSelection;
use napt_commands::{
    CountedRun, Exit, OutsideCapture, PacketConsumer, RunStart, Seconds, copy_inputs, print_warning,
};
use napt_records::{OutcomeCounts, cause_name};
use napt_sequential::{Input, Outcome};
use napt_wire::Cause;
use std::alloc::{AllocError, Global};
use std::fmt::Write;

/// Runs under two configurations over the same packets, and the number of different outcomes.
#[derive(Drop)]
pub struct RunComparison<'a> {
    choice: PacketSelection,
    first: CountedRun<'a>,
    second: CountedRun<'a>,
    different: u64,
}

/// A packet, numbered from 1, and its outcomes under both configurations.
#[derive(Clone, Copy)]
struct OutcomePair<'a> {
    number: u64,
    input: &'a Input,
    first: &'a Outcome,
    second: &'a Outcome,
}

impl<'a> RunComparison<'a> {
    /// Begins the comparison, before the first packet. `choice` selects the lines to print.
    pub fn begin(
        alloc: Global,
        choice: PacketSelection,
        start: &RunStart<'a>,
        other: &RunStart<'a>,
    ) -> Result<RunComparison<'a>, AllocError> {
        Ok(RunComparison {
            choice,
            first: CountedRun::begin(alloc, start)?,
            second: CountedRun::begin(alloc, other)?,
            different: 0,
        })
    }

    /// Passes the inputs through both runs. Replies follow each run separately.
    pub fn follow<R: Print + AllocGlobal>(
        &mut self,
        rt: &R,
        outside: OutsideCapture,
        inputs: &[Input],
    ) -> Result<(), Exit> {
        let alloc = rt.alloc();
        let first = outside.inputs_under(alloc, self.first.config(), copy_inputs(alloc, inputs)?)?;
        let second = outside.inputs_under(
            alloc,
            self.second.config(),
            copy_inputs(alloc, inputs)?,
        )?;
        let both = first.iter().zip(&second);
        for (place, (input, (first, second))) in inputs.iter().zip(both).enumerate() {
            let number = (place as u64).saturating_add(1);
            self.take_both(rt, number, input, [first, second])?;
        }
        Ok(())
    }

    /// Passes the next packet through each run, as that run receives it, and prints its line if the
    /// outcomes differ and it is selected.
    fn take_both<R: Print + AllocGlobal>(
        &mut self,
        rt: &R,
        number: u64,
        input: &Input,
        inputs: [&Input; 2],
    ) -> Result<(), Exit> {
        let [first, second] = inputs;
        let first = self.first.step(rt.alloc(), first)?;
        let second = self.second.step(rt.alloc(), second)?;
        let pair = OutcomePair {
            number,
            input,
            first: &first,
            second: &second,
        };
        if pair.ends_alike() {
            return Ok(());
        }
        self.different = self.different.saturating_add(1);
        pair.print(rt, self.choice)
    }

    /// Prints the warnings and the counts of both runs; `names` are the paths of their
    /// configurations. Fails with `Differences` if the outcomes of any packet, selected or not, differ.
    pub fn print<R: Print + Eprint>(
        &self,
        rt: &R,
        outside: OutsideCapture,
        names: [&str; 2],
    ) -> Result<(), Exit> {
        let [first, second] = names;
        print_warning(rt, outside, Some(first), &self.first.losses);
        print_warning(rt, outside, Some(second), &self.second.losses);
        self.print_counts(rt)?;
        if self.different > 0 {
            return Err(Exit::Differences);
        }
        Ok(())
    }

    /// Prints how many packets differ, and the counts under each configuration.
    fn print_counts<R: Print>(&self, rt: &R) -> Result<(), Exit> {
        let (first, second) = (&self.first.counts, &self.second.counts);
        let (packets, different) = (first.packets(), self.different);
        println!(rt; "packets: {packets}, of which {different} differ")?;
        let (one, other) = (first.to_outside(), second.to_outside());
        println!(rt; "  {one} and {other} to the outside")?;
        let (one, other) = (first.to_inside(), second.to_inside());
        println!(rt; "  {one} and {other} to the inside")?;
        print_drops(rt, first, second)
    }
}

impl<R: Print + AllocGlobal> PacketConsumer<R> for RunComparison<'_> {
    fn take(&mut self, rt: &R, number: u64, input: &Input) -> Result<(), Exit> {
        self.take_both(rt, number, input, [input, input])
    }
}

/// Prints for each cause the number of packets dropped under each configuration, unless both are 0.
fn print_drops<R: Print>(
    rt: &R,
    first: &OutcomeCounts,
    second: &OutcomeCounts,
) -> Result<(), Exit> {
    for cause in Cause::ALL {
        let (one, other) = (first.dropped(cause), second.dropped(cause));
        if one > 0 || other > 0 {
            println!(rt; "  {one} and {other} dropped, {}", cause_name(cause))?;
        }
    }
    Ok(())
}

impl<'a> OutcomePair<'a> {
    /// Returns whether both outcomes are the same, byte for byte.
    fn ends_alike(self) -> bool {
        match (self.first, self.second) {
            (Outcome::Dropped(one), Outcome::Dropped(other)) => one == other,
            (Outcome::ToOutside(one), Outcome::ToOutside(other))
            | (Outcome::ToInside(one), Outcome::ToInside(other)) => one.bytes() == other.bytes(),
            _ => false,
        }
    }

    /// Prints the line of the packet, if it is selected.
    fn print<R: Print + AllocGlobal>(self, rt: &R, choice: PacketSelection) -> Result<(), Exit> {
        if self.is_chosen(rt.alloc(), choice)? {
            let text = self.text(rt.alloc())?;
            println!(rt; "{text}")?;
        }
        Ok(())
    }

    fn is_chosen(self, alloc: Global, choice: PacketSelection) -> Result<bool, AllocError> {
        if !choice.selects(self.number, self.is_dropped()) {
            return Ok(false);
        }
        let Some(host) = choice.host else {
            return Ok(true);
        };
        if leaves_with(self.first, host) || leaves_with(self.second, host) {
            return Ok(true);
        }
        let input = self.input;
        is_end_of_arrival(host, alloc, input.side, &input.bytes)
    }

    /// Returns whether either configuration drops the packet.
    fn is_dropped(self) -> bool {
        matches!(self.first, Outcome::Dropped(_)) || matches!(self.second, Outcome::Dropped(_))
    }

    /// Returns the line of the packet, with its outcome under each configuration.
    fn text(self, alloc: Global) -> Result<String, AllocError> {
        let input = self.input;
        let mut text = String::new(alloc);
        let (time, side) = (Seconds(input.time), side_column(input.side));
        write!(text, "{} {time}{side}", self.number)?;
        add_arrival(alloc, &mut text, input.side, &input.bytes)?;
        text.push_str(" | ")?;
        add_outcome(&mut text, self.first)?;
        text.push_str(" | ")?;
        add_outcome(&mut text, self.second)?;
        Ok(text)
    }
}

/// Appends an outcome, such as `out: udp 203.0.113.1:5000 > 198.51.100.7:3000`.
fn add_outcome(text: &mut String, outcome: &Outcome) -> Result<(), AllocError> {
    match outcome {
        Outcome::Dropped(cause) => write!(text, "dropped, {}", cause_name(*cause)),
        Outcome::ToOutside(packet) => {
            text.push_str("out: ")?;
            add_packet(text, packet)
        }
        Outcome::ToInside(packet) => {
            text.push_str("in: ")?;
            add_packet(text, packet)
        }
    }
}
