//! The inputs of large runs: a thousand, and the inputs of sixteen hosts that each send to all
//! others. The functions fail only if memory is refused.

use crate::packets::udp;
use crate::samples::hosts::{RESOLVER, external, host};
use napt_run::Input;
use napt_wire::{Endpoint, Side};
use std::alloc::{AllocError, Global};

/// The settings of the thousand inputs.
pub const THREE_ADDRESSES: &str =
    "pool = ['203.0.113.1', '203.0.113.2', '203.0.113.3']\ninside = ['10.0.0.0/8']\n";

/// The external addresses 203.0.113.1 to 203.0.113.16.
pub const SIXTEEN_ADDRESSES: &str =
    "pool = ['203.0.113.1', '203.0.113.2', '203.0.113.3', '203.0.113.4', '203.0.113.5', \
'203.0.113.6', '203.0.113.7', '203.0.113.8', '203.0.113.9', '203.0.113.10', '203.0.113.11', '203.0.113.12', \
'203.0.113.13', '203.0.113.14', '203.0.113.15', '203.0.113.16']\ninside = ['10.0.0.0/8']\n";

const MILLISECOND: u64 = 1_000_000;

/// Returns a thousand UDP packets without payload, all from inside, one in each millisecond from 0
/// on. They come from the hosts 10.0.0.2 to 10.0.0.7 in turn and the ports 6000 to 6003 in turn.
/// Every fifth goes to the same port of 203.0.113.1, 203.0.113.2 and 203.0.113.3 in turn, the
/// others to `RESOLVER`. Under `THREE_ADDRESSES` no packet is dropped.
pub fn thousand_inputs(alloc: Global) -> Result<Vec<Input>, AllocError> {
    let mut inputs = Vec::new(alloc);
    for k in 0..1000u16 {
        let port = 6000 + k % 4;
        let destination = if k % 5 == 4 {
            external(1 + k / 5 % 3, port)
        } else {
            RESOLVER
        };
        let (time, from) = (u64::from(k) * MILLISECOND, host(2 + k % 6, port));
        inputs.push(input(alloc, Side::Inside, time, from, destination)?)?;
    }
    Ok(inputs)
}

/// Returns the packets of sixteen hosts, each with its own external address, that send to the
/// resolver, and then each to all the others in turn, one packet in each millisecond.
pub fn all_to_all(alloc: Global) -> Result<Vec<Input>, AllocError> {
    let mut inputs = Vec::new(alloc);
    for k in 0..272u16 {
        let destination = if k < 16 {
            RESOLVER
        } else {
            let round = k / 16 - 1;
            external(1 + (k + 1 + round) % 16, 7000)
        };
        let (time, from) = (u64::from(k) * MILLISECOND, host(16 + k % 16, 7000));
        inputs.push(input(alloc, Side::Inside, time, from, destination)?)?;
    }
    Ok(inputs)
}

/// Returns a packet that arrives from a side at this time, in ns, which is also its clock.
pub(crate) fn input(
    alloc: Global,
    side: Side,
    time: u64,
    source: Endpoint,
    destination: Endpoint,
) -> Result<Input, AllocError> {
    Ok(Input {
        side,
        time,
        clock: time,
        bytes: udp(alloc, source, destination)?,
    })
}
