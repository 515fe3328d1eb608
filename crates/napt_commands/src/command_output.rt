//! The output of a command about one run.

use crate::exit::Exit;
use crate::page::LineBuffer;
use crate::run_packet::{EndedRun, RunPacket};
use napt_config::Config;

/// The output of a command about one run under a configuration.
pub trait CommandOutput<R> {
    /// Processes the next packet, and appends its lines for standard output to `text`.
    fn take(
        &mut self,
        rt: &R,
        config: &Config,
        passing: RunPacket<'_>,
        text: &mut String,
    ) -> Result<(), Exit>;

    /// Flushes the output's files, before the program waits for packets or prints a fault.
    fn settle(&mut self, _rt: &R) -> Result<(), Exit> {
        Ok(())
    }

    /// Prints or writes the rest of the output at the end of the run.
    fn end(self, rt: &R, page: &mut LineBuffer, ending: &EndedRun<'_>) -> Result<(), Exit>;
}
