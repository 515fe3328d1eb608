//! Packets that passed the checks of reading.

ghost use Rattle.std.specs.Prelude.{◌≡◌, List, ℕ, false, true, Ok, Err, IfOk, IfErr, ◌<◌, ◌^◌, length};
ghost use Rattle.napt_wire.specs.{Fields.{source, destination, end_at, inner_datagram_start, kind, local_end, remote_end, is_error, CanCarry}, Reading.reading};
ghost use Rattle.napt_wire.specs.{Rewriting.{with_changes, end_changes, with_source, with_destination, reverted}, Packet.{IsPacket, form_of, quoted_of}};
ghost use Rattle.napt_wire.specs.{Header.IsHeader, TransportChecksum.transport_right, declared.Side.Side};

use crate::header::Header;
use crate::header_rewrite::ErrorRewrite;
use crate::reading::read_datagram;
use crate::transport_form::{DatagramEnd, TransportForm};
use crate::{Cause, Endpoint, Flags, Kind, Side, Way};
use std::marker::Model;

/// The body of a packet, by the form of its transport header.
#[derive(Clone, Copy)]
pub(crate) enum Body {
    Udp,
    Tcp(Flags),
    Request,
    Reply,
    Error(QuotedHeader),
}

/// The form and the offset in the error of the transport header that an ICMP error quotes.
#[derive(Clone, Copy)]
pub(crate) struct QuotedHeader {
    pub(crate) form: TransportForm,
    pub(crate) start: u16,
}

/// An IPv4 datagram that passed the checks, with its bytes. Contracts see the bytes, which always
/// read as a packet.
#[derive(Drop)]
pub struct Packet {
    bytes: Vec<u8>,
    /// The offset of the transport header, at most 60.
    start: u8,
    body: Body,
}

impl Model for Packet {
    ghost use Rattle.std.specs.Prelude.{ℕ, List};
    ghost use Rattle.napt_wire.specs.Packet.{PacketInvariant};

    ghost Value = { List ℕ };

    ghost view = { λ p. p.bytes.items };

    ghost invariant = { λ p. PacketInvariant p.bytes.items p.start p.body };
}

impl Packet {
    /// Reads bytes that arrived on a side, by the checks of RFC 791, 768, 9293, 792 and 5508 in
    /// order, except those on UDP, TCP and echo checksums. Bytes after the total length are cut
    /// off. If a check fails, returns its cause and the bytes unchanged.
    #[inline(always)]
    pub fn read(side: Side, mut bytes: Vec<u8>) -> Result<Packet, (Cause, Vec<u8>)>
        ensures ok { IfOk result (λ packet. reading side bytes.items ≡ Ok packet) }
        ensures cause { IfErr result (λ refused. reading side bytes.items ≡ Err refused.0) }
        ensures unchanged { IfErr result (λ refused. refused.1 ≡ bytes) }
    {
        match read_datagram(side, &bytes) {
            Ok(found) => {
                bytes.truncate(found.length);
                Ok(Packet {
                    bytes,
                    start: found.start,
                    body: found.body,
                })
            }
            Err(cause) => Err((cause, bytes)),
        }
    }

    /// Returns the bytes of the packet.
    pub fn bytes(&self) -> &[u8]
        ensures value { result.now ≡ self.now }
        ensures reads { IsPacket self.now }
    {
        &self.bytes
    }

    /// Returns the bytes of the packet, without a copy.
    pub fn into_bytes(self) -> Vec<u8>
        ensures value { result.items ≡ self }
        ensures reads { IsPacket self }
        ensures short { length result.items < 2 ^ 16 }
    {
        let Packet { bytes, .. } = self;
        bytes
    }

    /// Returns the source. Its number is 0 for an echo reply and an ICMP error.
    #[tactic(auto, unfolding(crate::specs::Fields::source))]
    pub fn source(&self) -> Endpoint
        ensures value { result ≡ source self.now }
        ensures carried { is_error (kind self.now) ≡ false →
            CanCarry (kind self.now) result.number }
    {
        self.end(DatagramEnd::Source)
    }

    /// Returns the destination. Its number is 0 for an echo request and an ICMP error.
    #[tactic(auto, unfolding(crate::specs::Fields::destination))]
    pub fn destination(&self) -> Endpoint
        ensures { result ≡ destination self.now }
    {
        self.end(DatagramEnd::Destination)
    }

    /// Returns the kind of the packet, which for an ICMP error has the quoted datagram.
    #[tactic(auto, unfolding(crate::specs::Fields::kind))]
    #[inline(always)]
    pub fn kind(&self) -> Kind
        ensures { result ≡ kind self.now }
    {
        match self.body {
            Body::Udp => Kind::Udp,
            Body::Tcp(flags) => Kind::Tcp(flags),
            Body::Request | Body::Reply => Kind::Echo,
            Body::Error(quoted) => Kind::ErrorOf(self.quoted_header(quoted).ends(&self.bytes)),
        }
    }

    /// Returns the inside end: the source if outgoing, and the destination if incoming. For an
    /// ICMP error it is the quoted datagram's destination if outgoing, and its source if incoming.
    #[tactic(auto, unfolding(crate::specs::Fields::local_end))]
    pub fn local_end(&self, way: Way) -> Endpoint
        ensures { result ≡ local_end way self.now }
    {
        match (self.kind(), way) {
            (Kind::ErrorOf(inner), Way::Outgoing) => inner.destination,
            (Kind::ErrorOf(inner), Way::Incoming) => inner.source,
            (_, Way::Outgoing) => self.source(),
            (_, Way::Incoming) => self.destination(),
        }
    }

    /// Returns the outside end, which is the end that `local_end` does not return.
    #[tactic(auto, unfolding(crate::specs::Fields::remote_end, crate::specs::Fields::local_end))]
    pub fn remote_end(&self, way: Way) -> Endpoint
        ensures { result ≡ remote_end way self.now }
    {
        match way {
            Way::Outgoing => self.local_end(Way::Incoming),
            Way::Incoming => self.local_end(Way::Outgoing),
        }
    }

    /// Replaces the source and updates each checksum that covers it (RFC 3022 sections 4.1 and
    /// 4.2). In an echo reply only the address changes. Takes constant time.
    #[tactic(auto, unfolding(crate::specs::Rewriting::with_source))]
    #[inline(always)]
    pub fn set_source(&mut self, source: Endpoint)
        requires plain { is_error (kind self.old) ≡ false }
        requires number { CanCarry (kind self.old) source.number }
        ensures value { self.new ≡ with_source source self.old }
        ensures reads { (side : Side) → reading side self.old ≡ Ok self.old → reading side self.new
            ≡ Ok self.new }
        // A transport checksum with all words that it covers is right if and only if it was before.
        ensures right { transport_right 0 self.new ≡ transport_right 0 self.old }
    {
        self.set_end(DatagramEnd::Source, source);
    }

    /// Replaces the destination and updates each checksum that covers it (RFC 3022 sections 4.1 and
    /// 4.2). In an echo request only the address changes. Takes constant time.
    #[tactic(auto, unfolding(crate::specs::Rewriting::with_destination))]
    #[inline(always)]
    pub fn set_destination(&mut self, destination: Endpoint)
        requires plain { is_error (kind self.old) ≡ false }
        requires number { CanCarry (kind self.old) destination.number }
        ensures value { self.new ≡ with_destination destination self.old }
        ensures reads { (side : Side) → reading side self.old ≡ Ok self.old → reading side self.new
            ≡ Ok self.new }
        // A transport checksum with all words that it covers is right if and only if it was before.
        ensures right { transport_right 0 self.new ≡ transport_right 0 self.old }
    {
        self.set_end(DatagramEnd::Destination, destination);
    }

    /// Restores the inside end of the datagram that an ICMP error quotes to `end`, and the error's
    /// own address to that of `end`: the quoted source and the error's destination if incoming, the
    /// quoted destination and the error's source if outgoing. Updates each checksum present that
    /// covers a replaced word (RFC 3022 section 4.3, RFC 5508 section 4). Takes constant time.
    pub fn revert_inner(&mut self, way: Way, end: Endpoint)
        requires error { is_error (kind self.old) ≡ true }
        requires number { CanCarry (kind self.old) end.number }
        ensures value { self.new ≡ reverted way end self.old }
        ensures reads { (side : Side) → reading side self.old ≡ Ok self.old → reading side self.new
            ≡ Ok self.new }
        // The same holds for the quoted datagram. The checksums of both IPv4 headers and of the
        // ICMP message are still right, because the bytes read as a packet.
        ensures right { transport_right (inner_datagram_start self.old) self.new
            ≡ transport_right (inner_datagram_start self.old) self.old }
    {
        let Body::Error(quoted) = self.body else {
            unreachable!();
        };
        let quoted = self.quoted_header(quoted);
        let rewrite = ErrorRewrite::from_packet(&self.bytes, self.header(), quoted, way, end);
        rewrite.write(&mut self.bytes);
    }

    /// Returns the packet's own headers.
    fn header(&self) -> Header
        ensures { IsHeader 0 result self.now }
    {
        Header {
            at: 0,
            start: self.start.into(),
            form: self.body.form(),
        }
    }

    /// Returns the headers of the datagram that an ICMP error quotes.
    fn quoted_header(&self, quoted: QuotedHeader) -> Header
        requires error { is_error (kind self.now) ≡ true }
        requires quoted { quoted ≡ quoted_of self.now }
        ensures { IsHeader (inner_datagram_start self.now) result self.now }
    {
        Header {
            at: usize::from(self.start) + 8,
            start: quoted.start.into(),
            form: quoted.form,
        }
    }

    /// Returns the endpoint at one end of the packet.
    #[inline(always)]
    fn end(&self, end: DatagramEnd) -> Endpoint
        ensures value { result ≡ end_at 0 end self.now }
        ensures reads { IsPacket self.now }
    {
        self.header().end(&self.bytes, end)
    }

    /// Replaces an end and updates each checksum that covers it.
    #[inline(always)]
    fn set_end(&mut self, end: DatagramEnd, new: Endpoint)
        requires plain { is_error (kind self.old) ≡ false }
        requires number { CanCarry (kind self.old) new.number }
        ensures value { self.new ≡ with_changes (end_changes 0 end new self.old) self.old }
        ensures reads { (side : Side) → reading side self.old ≡ Ok self.old → reading side self.new
            ≡ Ok self.new }
        ensures right { transport_right 0 self.new ≡ transport_right 0 self.old }
    {
        let rewrite = self.header().rewrite_end(&self.bytes, end, new);
        rewrite.write(&mut self.bytes);
    }
}

impl Body {
    /// Returns the form of the transport header.
    fn form(self) -> TransportForm
        ensures { result ≡ form_of self }
    {
        match self {
            Body::Udp => TransportForm::Udp,
            Body::Tcp(_) => TransportForm::Tcp,
            Body::Request => TransportForm::Request,
            Body::Reply => TransportForm::Reply,
            Body::Error(_) => TransportForm::Error,
        }
    }
}
