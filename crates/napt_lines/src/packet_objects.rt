//! The packets of a run as objects in JSON.

use crate::lines::PacketLine;
use crate::packet_selection::PacketSelection;
use crate::replies::Replies;
use napt_commands::{CommandOutput, EndedRun, Exit, LineBuffer, RunPacket};
use napt_config::Config;

/// Prints an object for each selected packet.
#[derive(Clone, Copy)]
pub struct PacketObjects<'a> {
    pub choice: PacketSelection,
    /// The packets from outside, if they are replies.
    pub replies: Option<Replies<'a>>,
}

impl<R: AllocGlobal> CommandOutput<R> for PacketObjects<'_> {
    fn take(
        &mut self,
        rt: &R,
        _config: &Config,
        passing: RunPacket<'_>,
        text: &mut String,
    ) -> Result<(), Exit> {
        let line = PacketLine::new(passing, self.replies);
        if line.is_chosen(rt.alloc(), self.choice)? {
            line.object().add_to(rt.alloc(), text)?;
        }
        Ok(())
    }

    fn end(self, _rt: &R, _page: &mut LineBuffer, _ending: &EndedRun<'_>) -> Result<(), Exit> {
        Ok(())
    }
}
