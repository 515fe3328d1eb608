//! A run that counts its packets.

use crate::loss_counts::LossCounts;
use crate::plain_run::PlainRun;
use crate::start::RunStart;
use napt_config::Config;
use napt_records::OutcomeCounts;
use napt_sequential::{Input, Outcome, RunFault};
use std::alloc::{AllocError, Global};

/// A run after some packets, with the counts of their outcomes.
#[derive(Drop)]
pub struct CountedRun<'a> {
    run: PlainRun<'a>,
    pub counts: OutcomeCounts,
    pub losses: LossCounts,
}

impl<'a> CountedRun<'a> {
    /// Begins the run, before its first packet. Fails only if memory is refused.
    pub fn begin(alloc: Global, start: &RunStart<'a>) -> Result<CountedRun<'a>, AllocError> {
        Ok(CountedRun {
            run: start.plain_run(alloc)?,
            counts: OutcomeCounts::new(),
            losses: LossCounts::new(alloc, start.config())?,
        })
    }

    /// Returns the configuration of the run.
    pub fn config(&self) -> &'a Config {
        self.run.config()
    }

    /// Passes the next packet through the run, and returns its outcome.
    pub fn step(&mut self, alloc: Global, input: &Input) -> Result<Outcome, RunFault> {
        let outcome = self.run.step(alloc, input)?;
        self.counts.count(&outcome);
        self.losses.count_packet(self.run.config(), input, &outcome);
        Ok(outcome)
    }
}
