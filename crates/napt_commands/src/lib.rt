//! The parts that the commands of `explain` share: the reasons why they stop, their output, the
//! packets of a run, and the counts of packets from outside that are dropped.
#![tactic(auto)]

mod command_output;
mod counted_run;
mod coverage;
mod exit;
mod files;
mod loss_counts;
mod outside_capture;
mod page;
mod plain_run;
mod run_packet;
mod seconds;
mod sorted_entries;
mod start;
mod warning;

pub use crate::command_output::CommandOutput;
pub use crate::counted_run::CountedRun;
pub use crate::coverage::Coverage;
pub use crate::exit::Exit;
pub use crate::files::{
    open_file, print_failed, print_unexplained, print_unwritten, text_at, unwritten,
};
pub use crate::loss_counts::{LossCounts, SourceKind, destination_of, source_of};
pub use crate::outside_capture::{OutsideCapture, copy_inputs};
pub use crate::page::LineBuffer;
pub use crate::run_packet::{EndedRun, PacketConsumer, RunPacket, pass_all};
pub use crate::seconds::Seconds;
pub use crate::sorted_entries::SortedEntries;
pub use crate::start::RunStart;
pub use crate::warning::print_warning;
