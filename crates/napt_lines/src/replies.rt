//! Replies that were dropped, and the reasons, in a user's words.

use crate::digits::{add_address, add_endpoint};
use napt_commands::{LossCounts, OutsideCapture, SourceKind};
use napt_config::{Address, Config};
use napt_sequential::Input;
use napt_wire::{Cause, Endpoint, Packet, Side, Way};
use std::alloc::{AllocError, Global};
use std::fmt::Write;
use std::mem;

/// The origin of replies from inside addresses.
const FROM_INSIDE: &str = "the captured gateway itself, or one host to another";

/// The origin of replies from an address of the pool.
const FROM_POOL: &str =
    "packets that the captured gateway sent back inside, or a remote; another pool would count them";

/// The replies of a run that followed it.
#[derive(Clone, Copy)]
pub struct Replies<'a> {
    config: &'a Config,
    /// The inside endpoint that was the destination of each input, if the input is a valid reply.
    ends: &'a [Option<Endpoint>],
}

/// Returns the inside endpoint to which each input is sent, if it comes from outside and is a valid
/// packet. Bytes after the packet's end are removed, as they are when it follows the run.
pub fn inside_endpoints_of(
    alloc: Global,
    inputs: &mut [Input],
) -> Result<Vec<Option<Endpoint>>, AllocError> {
    let mut ends = Vec::new(alloc);
    for input in inputs.iter_mut() {
        ends.push(inside_endpoint_of(alloc, input))?;
    }
    Ok(ends)
}

fn inside_endpoint_of(alloc: Global, input: &mut Input) -> Option<Endpoint> {
    if input.side == Side::Inside {
        return None;
    }
    let bytes = mem::replace(&mut input.bytes, Vec::new(alloc));
    match Packet::read(Side::Outside, bytes) {
        Ok(packet) => {
            let end = packet.local_end(Way::Incoming);
            input.bytes = packet.into_bytes();
            Some(end)
        }
        Err((_, bytes)) => {
            input.bytes = bytes;
            None
        }
    }
}

impl<'a> Replies<'a> {
    /// Returns the replies of a run under a configuration, with their inside endpoints, if any.
    pub fn new(
        outside: OutsideCapture,
        config: &'a Config,
        ends: &'a [Option<Endpoint>],
    ) -> Option<Replies<'a>> {
        outside.follows().then_some(Replies { config, ends })
    }

    /// Returns the inside endpoint of the packet with this number, from 1, if it is a valid reply.
    pub fn inside_endpoint_at(self, number: u64) -> Option<Endpoint> {
        let at = usize::try_from(number.checked_sub(1)?).ok()?;
        *self.ends.get(at)?
    }

    /// Appends why the reply with these bytes, which was sent to this inside endpoint, was dropped.
    /// Returns whether there is a text for this cause.
    pub fn add_loss(
        self,
        text: &mut String,
        cause: Cause,
        end: Endpoint,
        bytes: &[u8],
    ) -> Result<bool, AllocError> {
        match cause {
            Cause::NoBinding => {
                text.push_str("its inside endpoint ")?;
                add_endpoint(text, end)?;
                text.push_str(" has no live binding here")?;
            }
            Cause::NotOurs => {
                text.push_str("it is not to an inside host, but to ")?;
                add_address(text, end.address)?;
            }
            Cause::Spoofed => match SourceKind::from_datagram(self.config, bytes) {
                SourceKind::Inside => write!(text, "from an inside address: {FROM_INSIDE}")?,
                SourceKind::Pool(_) => write!(text, "from an address of the pool: {FROM_POOL}")?,
                SourceKind::Remote => return Ok(false),
            },
            _ => return Ok(false),
        }
        Ok(true)
    }

    /// Appends how many replies were dropped for a cause, and why.
    pub fn add_losses(
        self,
        text: &mut String,
        cause: Cause,
        losses: &LossCounts,
    ) -> Result<(), AllocError> {
        match cause {
            Cause::NoBinding if losses.no_binding > 0 => writeln!(
                text,
                "    {} to inside endpoints that have no live binding here",
                losses.no_binding
            ),
            Cause::NotOurs if losses.not_ours > 0 => writeln!(
                text,
                "    {} to no inside host",
                losses.not_ours
            ),
            Cause::Spoofed => self.add_spoofed(text, losses),
            _ => Ok(()),
        }
    }

    fn add_spoofed(self, text: &mut String, losses: &LossCounts) -> Result<(), AllocError> {
        let many = losses.spoofed_from_inside;
        if many > 0 {
            writeln!(text, "    {many} from inside addresses: {FROM_INSIDE}")?;
        }
        for (address, many) in self.config.pool().iter().zip(&losses.from_pool) {
            if *many > 0 {
                let address = Address(*address);
                writeln!(
                    text,
                    "    {many} from {address}, which is in the pool: {FROM_POOL}"
                )?;
            }
        }
        Ok(())
    }
}
