//! The rules of a run: everything that the theorem about a run refers to, and no code.
//!
//! `specs/` has the definition in reading order, with a legend on its first page, `Lib`; here are the plain structs
//! that it uses. The sources are RFC 3022, RFC 4787, RFC 5382, RFC 5508 and RFC 6888; each file names its sections.
#![tactic(auto)]

use napt_config::{Filter, MappingRefresh, NumberAssignment, PortBlock};
use napt_wire::{Cause, Endpoint, Flags, Packet, Protocol, Way};
use std::marker::Model;

/// What a TCP flow has seen: a SYN and a FIN from each side, and a reset (RFC 5382, REQ-2, REQ-5).
#[derive(Clone, Copy, Debug, PartialEq, Eq)]
pub struct SessionMarks {
    pub syn_out: bool,
    pub syn_in: bool,
    pub fin_out: bool,
    pub fin_in: bool,
    pub reset: bool,
}

/// The packets between the inside endpoint of a binding and one remote endpoint.
#[derive(Clone, Copy, Debug, PartialEq, Eq)]
pub struct Flow {
    pub remote: Endpoint,
    /// What the flow has seen; outside TCP no mark is set.
    pub marks: SessionMarks,
    /// The time at which the flow was last used, in ns.
    pub last: u64,
}

/// An inside endpoint and the external endpoint that replaces it under one protocol (RFC 3022,
/// section 2.2): what is reported of a binding, and what no packet changes.
#[derive(Clone, Copy, Debug, PartialEq, Eq)]
pub struct Row {
    pub protocol: Protocol,
    pub inside: Endpoint,
    pub external: Endpoint,
    /// Whether it is a static redirect, which never expires, lets in every remote and has no flows.
    pub fixed: bool,
}

/// A stored binding, generic in how its row (`R`) and its flows (`F`) are stored. Contracts see a
/// `Row` and a list.
#[derive(Drop)]
pub struct StoredBinding<R, F> {
    pub row: R,
    /// The time of the last outgoing packet, in ns; for UDP under `refresh = "both"`, of the last
    /// packet in either direction. It is 0 for a redirect.
    pub last: u64,
    /// One flow for each remote endpoint to which a packet went out.
    pub flows: F,
}

/// A binding of a state. Contracts see its flows as a list.
#[derive(Drop)]
pub struct StateBinding {
    pub row: Row,
    /// The time of the last use, in ns, as in a `StoredBinding`.
    pub last: u64,
    /// The flows in the order in which they began.
    pub flows: Vec<Flow>,
}

impl Model for StateBinding {
    ghost use Rattle.napt_rules.specs.Bindings.{Binding};

    ghost Value = { Binding };

    ghost view = { λ it. record { row = it.row; last = it.last; flows = it.flows.items } };
}

/// A state from which a run is resumed.
#[derive(Drop)]
pub struct State {
    /// The latest clock of the run that saved it, in ns.
    pub clock: u64,
    /// The bindings of all external addresses.
    pub list: Vec<StateBinding>,
}

impl Model for State {
    ghost use Rattle.napt_rules.specs.Sequential.{State};

    ghost Value = { State };

    ghost view = { λ it. record { clock = it.clock; list = it.list.items } };
}

/// The quota of bindings for an inside host (RFC 6888, REQ-4), and how a new number is chosen.
#[derive(Clone, Copy)]
pub struct AssignmentRules {
    /// The limit over all protocols, without redirects; `None` if there is no limit.
    pub quota: Option<u16>,
    pub choosing: NumberAssignment,
}

/// Which remotes a binding lets in (RFC 4787, REQ-8), and which packets refresh it (REQ-6).
#[derive(Clone, Copy, Debug, PartialEq, Eq)]
pub struct InboundRules {
    pub filter: Filter,
    pub refresh: MappingRefresh,
}

/// An outgoing packet and its time.
#[derive(Clone, Copy)]
pub struct OutboundPacket {
    pub protocol: Protocol,
    /// The source of the packet.
    pub inside: Endpoint,
    /// The destination of the packet.
    pub remote: Endpoint,
    /// The TCP flags; under other protocols they are ignored.
    pub flags: Flags,
    /// The time of the packet, in ns.
    pub now: u64,
    /// The host's port block, if the configuration gives each host one (RFC 7422, section 2).
    pub block: Option<PortBlock>,
}

/// An incoming packet and its time.
#[derive(Clone, Copy)]
pub struct InboundPacket {
    pub protocol: Protocol,
    /// The external number to which the packet is sent.
    pub number: u16,
    /// The source of the packet.
    pub remote: Endpoint,
    /// The TCP flags; under other protocols they are ignored.
    pub flags: Flags,
    /// The time of the packet, in ns.
    pub now: u64,
}

/// One translation of one packet, outgoing or incoming, at one external address.
#[derive(Drop)]
pub struct Leg {
    /// The number of the leg, which its answer repeats.
    pub number: u64,
    /// The time of the leg, in ns.
    pub now: u64,
    pub way: Way,
    pub packet: Packet,
}

/// The answer to a leg: what becomes of its packet.
#[derive(Drop)]
pub struct Answer {
    /// The number of the leg.
    pub number: u64,
    pub end: End,
}

/// How a leg ends.
#[derive(Drop)]
pub enum End {
    /// The packet goes to the outside.
    ToOutside(Packet),
    /// The packet goes to an inside host.
    ToInside(Packet),
    /// A hairpin: the destination is the pool address at this index, where the packet comes in
    /// again.
    Onward(u32, Packet),
    Dropped(Cause),
}

/// What became of an input.
#[derive(Drop)]
pub enum Outcome {
    /// The packet goes to the outside.
    ToOutside(Packet),
    /// The packet goes to an inside host.
    ToInside(Packet),
    Dropped(Cause),
}

/// Why a configuration does not take a binding of a state, in the order of the checks.
#[derive(Clone, Copy, Debug, PartialEq, Eq)]
pub enum Misfit {
    /// Its inside address is not that of an inside host.
    NotInside,
    /// Its external address is not the one paired with its host.
    NotPaired,
    /// One of its ports is 0, or its external number is not in the block of its host.
    BadNumber,
    /// The binding, or one of its flows, was last used after the clock of the state.
    UsedLater,
    /// Two of its flows have the same remote endpoint.
    FlowsShareRemote,
    /// It shares an endpoint with a redirect of the configuration.
    Redirected,
    /// It shares an endpoint with a later binding of the state.
    EndpointShared,
}
