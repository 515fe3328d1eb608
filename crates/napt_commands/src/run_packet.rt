//! A packet of a run, and the end of a run.

use crate::exit::Exit;
use crate::loss_counts::LossCounts;
use napt_account::{LogEntry, LogStep};
use napt_config::Config;
use napt_records::CutFlags;
use napt_rules::Row;
use napt_sequential::Input;

/// A packet of a run, and its outcome.
#[derive(Clone, Copy)]
pub struct RunPacket<'a> {
    /// The number of the packet, from 1.
    pub number: u64,
    pub input: &'a Input,
    pub step: &'a LogStep,
}

/// The end of a run under a configuration.
#[derive(Drop)]
pub struct EndedRun<'a> {
    pub config: &'a Config,
    /// The number of packets.
    pub packets: u64,
    /// The clock of the state from which the run continued, in ns, or 0.
    pub first: u64,
    /// The latest time of a packet, in ns, or `first` if there was none.
    pub last: u64,
    /// The greatest step back in time between packets, in ns.
    pub later: u64,
    pub cuts: CutFlags,
    /// The counts of dropped packets from outside.
    pub losses: LossCounts,
    /// Whether the packets that found no binding, or were not for the gateway, seem to be answers.
    pub are_answers: bool,
    /// The live bindings, in the order of the report.
    pub rows: Vec<Row>,
    /// The entries of the live bindings.
    pub living: Vec<LogEntry>,
}

/// Processes the packets of the captures, one after another, and retains none.
pub trait PacketConsumer<R> {
    /// Processes the next packet, which has this number, from 1.
    fn take(&mut self, rt: &R, number: u64, input: &Input) -> Result<(), Exit>;

    /// Flushes the output so far, before the program waits for more packets or prints a fault.
    fn settle(&mut self, _rt: &R) -> Result<(), Exit> {
        Ok(())
    }
}

/// Passes packets in memory to a consumer, one after another.
pub fn pass_all<R, C: PacketConsumer<R>>(
    rt: &R,
    inputs: &[Input],
    consumer: &mut C,
) -> Result<(), Exit> {
    let mut number = 0u64;
    for input in inputs {
        number = number.saturating_add(1);
        consumer.take(rt, number, input)?;
    }
    Ok(())
}
