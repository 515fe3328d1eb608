//! The forms of transport headers, and the two ends of a datagram.

ghost use Rattle.std.specs.Prelude.{◌≡◌, ◌+◌, ◌≤◌, length};
ghost use Rattle.napt_wire.specs.Fields.{address_place, form_at, icmp_form, number_place, protocol_of, transport_start};

use crate::Protocol;

/// The form of the transport header of a datagram.
#[derive(Clone, Copy)]
pub(crate) enum TransportForm {
    Udp,
    Tcp,
    /// An ICMP echo request.
    Request,
    /// An ICMP echo reply.
    Reply,
    /// Any other ICMP message. In a packet that passed the checks it is an ICMP error.
    Error,
}

impl TransportForm {
    /// Returns the form of the datagram at `at`, whose transport header begins at `start`.
    #[tactic(auto, unfolding(crate::specs::Fields::form_at))]
    pub(crate) fn from_protocol(bytes: &[u8], at: usize, start: usize) -> TransportForm
        requires header { at + 20 ≤ start }
        requires start { start ≡ transport_start at bytes.now }
        requires room { start + 1 ≤ length bytes.now }
        ensures { result ≡ form_at at bytes.now }
    {
        match bytes[at + 9] {
            17 => TransportForm::Udp,
            6 => TransportForm::Tcp,
            _ => TransportForm::from_icmp_type(bytes[start]),
        }
    }

    /// Returns the form of an ICMP message with this type (RFC 792).
    fn from_icmp_type(icmp_type: u8) -> TransportForm
        ensures { result ≡ icmp_form icmp_type }
    {
        match icmp_type {
            8 => TransportForm::Request,
            0 => TransportForm::Reply,
            _ => TransportForm::Error,
        }
    }

    /// Returns the offset of the number of an end in the transport header, if it has one.
    pub(crate) fn number_place(self, end: DatagramEnd) -> Option<usize>
        ensures { result ≡ number_place self end }
    {
        match (self, end) {
            (TransportForm::Udp | TransportForm::Tcp, DatagramEnd::Source) => Some(0),
            (TransportForm::Udp | TransportForm::Tcp, DatagramEnd::Destination) => Some(2),
            (TransportForm::Request, DatagramEnd::Source)
            | (TransportForm::Reply, DatagramEnd::Destination) => Some(4),
            _ => None,
        }
    }

    /// Returns the protocol of this form.
    pub(crate) fn protocol(self) -> Protocol
        ensures { result ≡ protocol_of self }
    {
        match self {
            TransportForm::Udp => Protocol::Udp,
            TransportForm::Tcp => Protocol::Tcp,
            TransportForm::Request | TransportForm::Reply | TransportForm::Error => Protocol::Icmp,
        }
    }
}

/// One of the two ends of a datagram.
#[derive(Clone, Copy)]
pub(crate) enum DatagramEnd {
    Source,
    Destination,
}

impl DatagramEnd {
    /// Returns the offset of the address of this end in an IPv4 header.
    pub(crate) fn address_place(self) -> usize
        ensures { result ≡ address_place self }
    {
        match self {
            DatagramEnd::Source => 12,
            DatagramEnd::Destination => 16,
        }
    }
}
