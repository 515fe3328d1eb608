//! The start of the search for a free number: the number, or a hash (RFC 6056, section 3.3.3).

ghost use Rattle.std.specs.Prelude.{◌≡◌, ◌-◌, ◌/◌, ◌%◌, ◌<◌, ◌≤◌};
ghost use Rattle.napt_rules.specs.Prelude.{mixed, protocol_byte, place_in};
ghost use Rattle.napt_table.specs.Classes.{place_of_class};

use crate::candidate_class::CandidateClass;
use napt_config::{NumberAssignment, Seed};
use napt_wire::{Endpoint, Protocol};
use std::hash::{DefaultHasher, Hasher};

/// Returns the protocol's number in an IPv4 header: 1, 6 or 17.
fn protocol_byte(protocol: Protocol) -> u8
    ensures { result ≡ protocol_byte protocol }
{
    match protocol {
        Protocol::Icmp => 1,
        Protocol::Tcp => 6,
        Protocol::Udp => 17,
    }
}

/// Returns SipHash-1-3, under the seed, of the protocol and the inside endpoint, in network order.
fn mixed(seed: Seed, protocol: Protocol, inside: Endpoint) -> u64
    ensures { result ≡ mixed seed protocol inside }
{
    let mut hasher = DefaultHasher::new();
    hasher.write(&seed.bytes);
    hasher.write(&[protocol_byte(protocol)]);
    hasher.write(&inside.address.to_be_bytes());
    hasher.write(&inside.number.to_be_bytes());
    hasher.finish()
}

/// Returns the place, from 0, of the first candidate in a class.
pub(crate) fn place_in_class(
    seed: Option<Seed>,
    class: CandidateClass,
    protocol: Protocol,
    inside: Endpoint,
) -> u32
    requires apart { 0 < class.step }
    requires some { 0 < class.count }
    requires own { (inside.number - class.least) / class.step ≤ class.count }
    ensures place { result ≡ place_of_class seed class protocol inside }
    ensures within { result ≤ class.count }
{
    match seed {
        None => u32::from(inside.number).saturating_sub(class.least) / class.step,
        Some(seed) => (mixed(seed, protocol, inside) % u64::from(class.count)) as u32,
    }
}

/// Returns the place, from 0, of the first candidate in a port block of this size.
pub(crate) fn place_in_block(
    choosing: NumberAssignment,
    size: u16,
    protocol: Protocol,
    inside: Endpoint,
) -> u16
    requires even { size % 2 ≡ 0 }
    requires some { 64 ≤ size }
    ensures place { result ≡ place_in choosing.seed choosing.keeps_parity size protocol inside }
    ensures within { result < size }
{
    let Some(seed) = choosing.seed else {
        return inside.number % size;
    };
    let mixed = mixed(seed, protocol, inside);
    if choosing.keeps_parity {
        2 * (mixed % u64::from(size / 2)) as u16 + inside.number % 2
    } else {
        (mixed % u64::from(size)) as u16
    }
}
