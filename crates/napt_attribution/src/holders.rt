//! The holders of the external endpoints that requests name, collected during a run.

use crate::answers::{AnswerBasis, Basis, print_answers};
use crate::requests::HolderRequest;
use crate::wanted_endpoints::WantedEndpoints;
use napt_account::{LogEntry, in_order_of_making};
use napt_commands::{CommandOutput, EndedRun, Exit, LineBuffer, RunPacket};
use napt_config::Config;
use std::alloc::{AllocError, Global};

/// The ended bindings of a run that requests ask about.
#[derive(Drop)]
pub struct Holders<'a> {
    asked: &'a [HolderRequest],
    wanted: WantedEndpoints,
    /// The bindings in the order in which they ended.
    ended: Vec<LogEntry>,
}

impl<'a> Holders<'a> {
    /// Returns the value before the first packet.
    pub fn new(alloc: Global, asked: &'a [HolderRequest]) -> Result<Holders<'a>, AllocError> {
        Ok(Holders {
            asked,
            wanted: WantedEndpoints::from_requests(alloc, asked)?,
            ended: Vec::new(alloc),
        })
    }

    /// Adds bindings that ended, if requests ask about them.
    pub fn add(&mut self, entries: &[LogEntry]) -> Result<(), AllocError> {
        for listed in entries {
            if self.wanted.contains(listed.entry.binding.external) {
                self.ended.push(*listed)?;
            }
        }
        Ok(())
    }
}

impl<R: Print + AllocGlobal> CommandOutput<R> for Holders<'_> {
    fn take(
        &mut self,
        _rt: &R,
        _config: &Config,
        passing: RunPacket<'_>,
        _text: &mut String,
    ) -> Result<(), Exit> {
        self.add(&passing.step.part.ended)?;
        Ok(())
    }

    /// Prints the answers. Fails with `NoHolder` if a request has none.
    fn end(self, rt: &R, _page: &mut LineBuffer, ending: &EndedRun<'_>) -> Result<(), Exit> {
        let mut holders = self;
        holders.add(&ending.living)?;
        let entries = in_order_of_making(rt.alloc(), holders.ended)?;
        let known = AnswerBasis {
            entries: &entries,
            last: ending.last,
            greatest_step_back: ending.later,
            config: Some(ending.config),
            basis: Basis::Run(ending.first),
        };
        print_answers(rt, holders.asked, known)
    }
}
