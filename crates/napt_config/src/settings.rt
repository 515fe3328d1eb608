//! The settings of a configuration.

use std::fmt;

/// Which remotes may send in through a binding (RFC 4787, section 5).
#[derive(Clone, Copy, Debug, PartialEq, Eq)]
pub enum Filter {
    /// Every remote may.
    Independent,
    /// A remote may if the inside endpoint has sent to its address.
    Address,
    /// A remote may if the inside endpoint has sent to its address and port.
    AddressPort,
}

/// Which packets refresh a UDP binding (RFC 4787, REQ-6); other protocols have their own rules.
#[derive(Clone, Copy, Debug, PartialEq, Eq)]
pub enum MappingRefresh {
    /// Outgoing packets refresh it.
    Outbound,
    /// Outgoing packets, and incoming packets that are let in, refresh it.
    Both,
}

/// How the external number of a new binding is chosen (RFC 7857, sections 8 and 9).
#[derive(Clone, Copy, Debug)]
pub struct NumberAssignment {
    /// Whether a port is mapped to one of the same parity (RFC 4787, REQ-4).
    pub keeps_parity: bool,
    /// The seed of random numbers. Without one, a number is preserved if it is free.
    pub seed: Option<Seed>,
}

impl NumberAssignment {
    /// The choice by default: parity is kept, and numbers are preserved.
    pub const DEFAULT: NumberAssignment = NumberAssignment {
        keeps_parity: true,
        seed: None,
    };
}

/// The source of random numbers (RFC 6056, section 3.3.3). It is a secret and is never printed.
#[derive(Clone, Copy)]
pub struct Seed {
    pub bytes: [u8; 16],
}

impl fmt::Debug for Seed {
    fn fmt<W: fmt::Write>(&self, f: &mut fmt::Formatter<W>) -> fmt::Result {
        f.write_str("Seed")
    }
}

/// Idle timers and the hold, in seconds (RFC 4787, section 4.3; RFC 5382, section 5; RFC 5508, section 3.2).
#[derive(Clone, Copy, Debug, PartialEq, Eq)]
pub struct Timers {
    /// The timer of a UDP binding.
    pub udp: u64,
    /// The timer of an established TCP flow.
    pub established: u64,
    /// The timer of any other TCP flow.
    pub transitory: u64,
    /// The timer of an ICMP query's binding.
    pub icmp: u64,
    /// How long no other inside endpoint may get an ended binding's number (RFC 6888, REQ-8).
    pub hold: u64,
}

impl Timers {
    /// The timers of a configuration that sets none.
    pub const DEFAULT: Timers = Timers {
        udp: 300,
        established: 7440,
        transitory: 240,
        icmp: 60,
        hold: 0,
    };
}

/// A host's port block: `size` numbers from `first` on, for each protocol (RFC 7422, section 2).
#[derive(Clone, Copy, Debug, PartialEq, Eq)]
pub struct PortBlock {
    /// The first number, which is even and at least 1024.
    pub first: u16,
    /// The count of numbers, which is even and at least 64. The last number is at most 65535.
    pub size: u16,
}

/// A static redirect: a UDP or TCP port of an inside host, mapped to an external port (RFC 3022,
/// section 2.2) at the external address that is paired with the host.
#[derive(Clone, Copy, Debug, PartialEq, Eq)]
pub struct Redirect {
    /// Whether the redirect is for TCP; otherwise it is for UDP.
    pub tcp: bool,
    /// The address of the inside host.
    pub address: u32,
    /// The port of the inside host, which is never 0.
    pub port: u16,
    /// The external port, which is never 0.
    pub external: u16,
}
