//! A selected host or endpoint without packets and bindings.

use crate::lines::{PacketLine, has_party};
use crate::packet_selection::PacketSelection;
use napt_account::{LogEntry, Party};
use napt_config::Address;
use std::alloc::{AllocError, Global};

/// The selected host or endpoint, as long as it has no packet and no binding.
#[derive(Clone, Copy)]
pub struct UnmatchedSelection {
    host: Option<Party>,
}

impl UnmatchedSelection {
    /// Returns the value before the first packet, with the bindings of redirects.
    pub fn new(choice: PacketSelection, opening: &[LogEntry]) -> UnmatchedSelection {
        let mut unmatched = UnmatchedSelection { host: choice.host };
        unmatched.add_bindings(opening);
        unmatched
    }

    /// Checks the next packet, and the bindings that it made.
    pub fn add_packet(
        &mut self,
        alloc: Global,
        line: PacketLine<'_>,
        made: &[LogEntry],
    ) -> Result<(), AllocError> {
        self.add_bindings(made);
        if let Some(host) = self.host
            && line.has_host(alloc, host)?
        {
            self.host = None;
        }
        Ok(())
    }

    fn add_bindings(&mut self, bindings: &[LogEntry]) {
        if bindings
            .iter()
            .any(|listed| has_party(&listed.entry.binding, self.host))
        {
            self.host = None;
        }
    }

    /// Prints that the selected host or endpoint has no packet and no binding, if it has none.
    pub fn print<R: Eprint>(self, rt: &R) {
        let Some(host) = self.host else {
            return;
        };
        let address = Address(host.address);
        let _ = match host.number {
            Some(number) => eprintln!(rt;
                "explain: --host {address}:{number}: no packet or binding has this endpoint"
            ),
            None => eprintln!(rt;
                "explain: --host {address}: no packet or binding has this address"
            ),
        };
    }
}
