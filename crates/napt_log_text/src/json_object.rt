//! The object of a packet in JSON (RFC 8259), for programs.
ghost use Rattle.std.specs.Prelude.{◌≡◌, ◌++◌, OnOk, IfOk, codes, option_map, string_bytes};
ghost use Rattle.napt_wire.specs.{Bytes.byte_at, Fields.{form_at, transport_start}};
ghost use Rattle.napt_log_text.specs.Objects as objects;

use crate::digits::{add_address, add_number};
use napt_account::LogNote;
use napt_records::{cause_name, protocol_name};
use napt_rules::Outcome;
use napt_sequential::Input;
use napt_wire::{Endpoint, Inner, Kind, Packet, Protocol, Side};
use std::alloc::{AllocError, Global};

/// The type of an ICMP echo request (RFC 792).
const ECHO_REQUEST: u8 = 8;

/// The values of an object: a packet of a run, and its outcome.
#[derive(Clone, Copy)]
pub struct JsonObject<'a> {
    /// The number of the packet, from 1, in the order of the run.
    pub number: u64,
    /// The packet as it arrived, or bytes that are not a packet.
    pub input: &'a Input,
    pub outcome: &'a Outcome,
    /// The effect of the packet on the first binding that it used.
    pub note: LogNote,
}

/// The endpoints of a packet.
#[derive(Clone, Copy)]
struct PacketEnds {
    source: Endpoint,
    destination: Endpoint,
    numbers: PacketNumbers,
}

/// The meaning of the numbers of endpoints.
#[derive(Clone, Copy)]
enum PacketNumbers {
    Ports,
    Identifier,
    /// An ICMP error has no number.
    Absent,
}

impl JsonObject<'_> {
    /// Appends the object and a line feed; its time is in ns. Fails only if memory is refused.
    pub fn add_to(&self, alloc: Global, text: &mut String) -> Result<(), AllocError>
        ensures { OnOk result (string_bytes text.new ≡ string_bytes text.old ++ objects.object_text
            self.now.number self.now.input.now self.now.outcome.now self.now.note) }
    {
        self.add_members(alloc, text)?;
        text.push_str("\n")?;
        Ok(())
    }

    /// Appends the object without the end of its line.
    #[tactic(auto, unfolding(crate::specs::Objects::object_of))]
    fn add_members(&self, alloc: Global, text: &mut String) -> Result<(), AllocError>
        ensures { OnOk result (string_bytes text.new ≡ string_bytes text.old ++ objects.object_of
            self.now.number self.now.input.now self.now.outcome.now self.now.note) }
    {
        let input = self.input;
        text.push_str("{\"number\":")?;
        add_number(text, self.number)?;
        text.push_str(",\"time\":")?;
        add_number(text, input.time)?;
        add_fate(input.side, self.outcome, self.note, text)?;
        text.push_str(",\"before\":")?;
        add_arrived(alloc, input, text)?;
        text.push_str(",\"after\":")?;
        add_packet_or_null(packet_sent(self.outcome), text)?;
        text.push_str("}")?;
        Ok(())
    }
}

/// Appends the members of the outcome of a packet, with a comma before them.
#[tactic(auto, unfolding(crate::specs::Objects::fate_members))]
fn add_fate(
    side: Side,
    outcome: &Outcome,
    note: LogNote,
    text: &mut String,
) -> Result<(), AllocError>
    ensures { OnOk result (string_bytes text.new ≡ string_bytes text.old
        ++ (codes "," ++ objects.fate_members side outcome.now note)) }
{
    text.push_str(",\"side\":")?;
    text.push_str(side_text(side))?;
    text.push_str(",\"outcome\":")?;
    add_outcome(outcome, text)?;
    text.push_str(",\"binding\":")?;
    text.push_str(binding(outcome, note))?;
    text.push_str(hairpin(side, outcome))?;
    Ok(())
}

/// Appends the name of an outcome and the cause.
#[tactic(auto, unfolding(crate::specs::Objects::quoted))]
fn add_outcome(outcome: &Outcome, text: &mut String) -> Result<(), AllocError>
    ensures { OnOk result (string_bytes text.new ≡ string_bytes text.old
        ++ (objects.quoted (objects.outcome_name outcome.now)
        ++ (codes ",\"cause\":" ++ objects.cause_text outcome.now))) }
{
    match outcome {
        Outcome::ToOutside(_) => text.push_str("\"to-outside\",\"cause\":null"),
        Outcome::ToInside(_) => text.push_str("\"to-inside\",\"cause\":null"),
        Outcome::Dropped(cause) => {
            text.push_str("\"dropped\",\"cause\":\"")?;
            text.push_str(cause_name(*cause))?;
            text.push_str("\"")
        }
    }
}

#[tactic(auto, unfolding(crate::specs::Objects::quoted))]
fn side_text(side: Side) -> &'static str
    ensures { result.now ≡ objects.quoted (objects.json_side_name side) }
{
    match side {
        Side::Inside => "\"inside\"",
        Side::Outside => "\"outside\"",
    }
}

/// Returns the effect of a packet that left on the first binding that it used.
#[tactic(auto, unfolding(crate::specs::Objects::quoted))]
fn binding(outcome: &Outcome, note: LogNote) -> &'static str
    ensures { result.now ≡ objects.binding_text outcome.now note }
{
    match (outcome, note) {
        (Outcome::Dropped(_), _) | (_, LogNote::Nothing) => "null",
        (_, LogNote::Made) => "\"made\"",
        (_, LogNote::Found) => "\"found\"",
        (_, LogNote::Redirect) => "\"redirect\"",
    }
}

/// Returns the member that says whether a packet is a hairpin, with a comma before it.
fn hairpin(side: Side, outcome: &Outcome) -> &'static str
    ensures { result.now ≡ codes ",\"hairpin\":"
        ++ objects.boolean (objects.is_hairpin side outcome.now) }
{
    match (side, outcome) {
        (Side::Inside, Outcome::ToInside(_)) => ",\"hairpin\":true",
        _ => ",\"hairpin\":false",
    }
}

/// Returns the packet that leaves, if one does.
fn packet_sent(outcome: &Outcome) -> Option<&Packet>
    ensures { option_map (λ packet. packet.now) result ≡ objects.packet_sent outcome.now }
{
    match outcome {
        Outcome::ToOutside(packet) | Outcome::ToInside(packet) => Some(packet),
        Outcome::Dropped(_) => None,
    }
}

/// Appends the object of an input's packet, or null if its bytes cannot be read as one.
fn add_arrived(alloc: Global, input: &Input, text: &mut String) -> Result<(), AllocError>
    ensures { OnOk result (string_bytes text.new ≡ string_bytes text.old
        ++ objects.packet_or_null (objects.arrival_member input.now)) }
{
    let bytes = Vec::from_slice(alloc, &input.bytes)?;
    match Packet::read(input.side, bytes) {
        Ok(packet) => add_packet(&packet, text),
        Err(_) => text.push_str("null"),
    }
}

fn add_packet_or_null(packet: Option<&Packet>, text: &mut String) -> Result<(), AllocError>
    ensures { OnOk result (string_bytes text.new ≡ string_bytes text.old
        ++ objects.packet_or_null (option_map (λ known. known.now) packet.entry)) }
{
    match packet {
        Some(packet) => add_packet(packet, text),
        None => text.push_str("null"),
    }
}

/// Appends the object of a packet.
#[tactic(auto, unfolding(crate::specs::Objects::packet_object))]
fn add_packet(packet: &Packet, text: &mut String) -> Result<(), AllocError>
    ensures { OnOk result (string_bytes text.new
        ≡ string_bytes text.old ++ objects.packet_object packet.now) }
{
    text.push_str("{\"kind\":")?;
    text.push_str(kind_text(packet))?;
    PacketEnds::from_packet(packet).add_to(text)?;
    add_about(packet.kind(), text)?;
    text.push_str("}")?;
    Ok(())
}

/// Appends the member with the subject of an ICMP error, with a comma before it.
fn add_about(kind: Kind, text: &mut String) -> Result<(), AllocError>
    ensures { OnOk result (string_bytes text.new ≡ string_bytes text.old
        ++ (codes ",\"about\":" ++ objects.about_text kind)) }
{
    match kind {
        Kind::Udp | Kind::Tcp(_) | Kind::Echo => text.push_str(",\"about\":null"),
        Kind::ErrorOf(inner) => {
            text.push_str(",\"about\":")?;
            add_quoted(inner, text)
        }
    }
}

/// Appends the object of the packet that an ICMP error quotes.
#[tactic(auto, unfolding(crate::specs::Objects::quoted_object))]
fn add_quoted(inner: Inner, text: &mut String) -> Result<(), AllocError>
    ensures { OnOk result (string_bytes text.new
        ≡ string_bytes text.old ++ objects.quoted_object inner) }
{
    text.push_str("{\"protocol\":\"")?;
    text.push_str(protocol_name(inner.protocol))?;
    text.push_str("\"")?;
    PacketEnds::from_quoted(inner).add_to(text)?;
    text.push_str("}")?;
    Ok(())
}

impl PacketEnds {
    /// Returns the endpoints of a packet.
    fn from_packet(packet: &Packet) -> PacketEnds
        ensures { result ≡ objects.ends_of packet.now }
    {
        PacketEnds {
            source: packet.source(),
            destination: packet.destination(),
            numbers: PacketNumbers::from_kind(packet.kind()),
        }
    }

    /// Returns the endpoints of the packet that an ICMP error quotes.
    fn from_quoted(inner: Inner) -> PacketEnds
        ensures { result ≡ objects.ends_in inner }
    {
        PacketEnds {
            source: inner.source,
            destination: inner.destination,
            numbers: PacketNumbers::from_protocol(inner.protocol),
        }
    }

    /// Appends the members of the endpoints, with a comma before them.
    #[tactic(auto, unfolding(crate::specs::Objects::end_members))]
    fn add_to(self, text: &mut String) -> Result<(), AllocError>
        ensures { OnOk result (string_bytes text.new ≡ string_bytes text.old
            ++ (codes "," ++ objects.end_members self)) }
    {
        text.push_str(",\"source\":\"")?;
        add_address(text, self.source.address)?;
        text.push_str("\",\"source_port\":")?;
        self.numbers.add_port(self.source.number, text)?;
        text.push_str(",\"destination\":\"")?;
        add_address(text, self.destination.address)?;
        text.push_str("\",\"destination_port\":")?;
        self.numbers.add_port(self.destination.number, text)?;
        text.push_str(",\"identifier\":")?;
        self.numbers
            .add_identifier(self.source.number, self.destination.number, text)?;
        Ok(())
    }
}

impl PacketNumbers {
    /// Returns the numbers of a packet.
    fn from_kind(kind: Kind) -> PacketNumbers
        ensures { result ≡ objects.packet_numbers kind }
    {
        match kind {
            Kind::Udp | Kind::Tcp(_) => PacketNumbers::Ports,
            Kind::Echo => PacketNumbers::Identifier,
            Kind::ErrorOf(_) => PacketNumbers::Absent,
        }
    }

    /// Returns the numbers of the packet that an ICMP error quotes.
    fn from_protocol(protocol: Protocol) -> PacketNumbers
        ensures { result ≡ objects.numbers_in protocol }
    {
        match protocol {
            Protocol::Icmp => PacketNumbers::Identifier,
            Protocol::Tcp | Protocol::Udp => PacketNumbers::Ports,
        }
    }

    /// Appends the number of an end if it is a port, and otherwise null.
    fn add_port(self, number: u16, text: &mut String) -> Result<(), AllocError>
        ensures { OnOk result (string_bytes text.new
            ≡ string_bytes text.old ++ objects.port_text self number) }
    {
        match self {
            PacketNumbers::Ports => add_number(text, u64::from(number)),
            PacketNumbers::Identifier | PacketNumbers::Absent => text.push_str("null"),
        }
    }

    /// Appends the identifier of one of the ends, if there is one, and otherwise null.
    fn add_identifier(self, one: u16, other: u16, text: &mut String) -> Result<(), AllocError>
        ensures { OnOk result (string_bytes text.new
            ≡ string_bytes text.old ++ objects.identifier_text self one other) }
    {
        match self {
            PacketNumbers::Identifier => add_number(text, u64::from(one.max(other))),
            PacketNumbers::Ports | PacketNumbers::Absent => text.push_str("null"),
        }
    }
}

#[tactic(auto, unfolding(crate::specs::Objects::quoted))]
fn kind_text(packet: &Packet) -> &'static str
    ensures { result.now ≡ objects.quoted (objects.form_name (form_at 0 packet.now)) }
{
    match packet.kind() {
        Kind::Udp => "\"udp\"",
        Kind::Tcp(_) => "\"tcp\"",
        Kind::Echo if icmp_type(packet.bytes()) == ECHO_REQUEST => "\"icmp-echo-request\"",
        Kind::Echo => "\"icmp-echo-reply\"",
        Kind::ErrorOf(_) => "\"icmp-error\"",
    }
}

/// Returns the type of an ICMP message: the first byte after the IP header (RFC 792), whose length
/// is in units of four bytes (RFC 791, section 3.1).
fn icmp_type(bytes: &[u8]) -> u8
    ensures { result ≡ byte_at (transport_start 0 bytes.now) bytes.now }
{
    let first = byte(bytes, 0);
    byte(bytes, 4 * usize::from(first & 15))
}

/// Returns a byte, or 0 past the end.
fn byte(bytes: &[u8], place: usize) -> u8
    ensures { result ≡ byte_at place bytes.now }
{
    bytes.get(place).copied().unwrap_or(0)
}
