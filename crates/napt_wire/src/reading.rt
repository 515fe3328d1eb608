//! The checks on an arriving packet, in order, and what they find.

ghost use Rattle.std.specs.{Prelude.{◌≡◌, ◌+◌, ◌≤◌, ◌||◌, ◌==◌, not, length, drop, take, is_none, Ok, Err, IfOk, IfErr, IfSome, Some, None}, Result.result_err};
ghost use Rattle.napt_wire.specs.{Bytes.words, Checksum.is_right};
ghost use Rattle.napt_wire.specs.Fields.{flags_of, form_at, fragment_offset, has_more_fragments, header_length, inner_datagram_start, total_length, transport_start};
ghost use Rattle.napt_wire.specs.Packet.{BodyIsFound, body_of, quoted_of};
ghost use Rattle.napt_wire.specs.Reading.{body_checks, error_checks, has_bad_inner, has_bad_transport, has_zero_port, header_checks, is_known_protocol, is_quotable, is_translated_message, length_checks, reading, refusal};
ghost use Rattle.napt_wire.specs.Header.{IsHeader};

use crate::bytes::{read_u16, read_u32};
use crate::checksum::is_right;
use crate::header::Header;
use crate::packet::{Body, QuotedHeader};
use crate::transport_form::TransportForm;
use crate::{Cause, Flags, Side};

/// The parts of a datagram that passed the checks.
#[derive(Clone, Copy)]
pub(crate) struct DatagramParts {
    /// The total length of the datagram, in bytes.
    pub(crate) length: usize,
    /// The offset of its transport header.
    pub(crate) start: u8,
    pub(crate) body: Body,
}

/// Returns the parts of the datagram at the front, or the cause of the first check that fails.
pub(crate) fn read_datagram(side: Side, bytes: &[u8]) -> Result<DatagramParts, Cause>
    ensures ok { IfOk result (λ found. reading side bytes.now ≡ Ok (take found.length bytes.now)) }
    ensures length { IfOk result (λ found. found.length ≡ total_length 0 bytes.now) }
    ensures found { IfOk result (λ found.
        BodyIsFound (take found.length bytes.now) found.start found.body) }
    ensures cause { IfErr result (λ cause. reading side bytes.now ≡ Err cause) }
{
    let length = read_length(bytes)?;
    let datagram = &bytes[..length];
    let start = read_header(datagram)?;
    let body = read_body(side, datagram, start.into())?;
    Ok(DatagramParts {
        length,
        start,
        body,
    })
}

/// Returns the total length if the lengths in the header are valid (RFC 791 section 3.1).
fn read_length(bytes: &[u8]) -> Result<usize, Cause>
    ensures checks { result_err result ≡ refusal (length_checks bytes.now) }
    ensures length { IfOk result (λ length. length ≡ total_length 0 bytes.now) }
    ensures header { IfOk result (λ length. (20 ≤ header_length 0 bytes.now)
        × (header_length 0 bytes.now ≤ length)) }
    ensures whole { IfOk result (λ total. total ≤ length bytes.now) }
{
    if bytes.len() < 20 {
        return Err(Cause::Truncated);
    }
    if bytes[0] >> 4 != 4 {
        return Err(Cause::NotIpv4);
    }
    let header = usize::from(read_header_length(bytes, 0));
    let total = usize::from(read_u16(bytes, 2));
    if header < 20 || total < header {
        return Err(Cause::BadHeader);
    }
    if bytes.len() < total {
        return Err(Cause::Truncated);
    }
    Ok(total)
}

/// Returns the length of the header at `at`, in bytes.
fn read_header_length(bytes: &[u8], at: usize) -> u8
    requires { at + 1 ≤ length bytes.now }
    ensures value { result ≡ header_length at bytes.now }
    ensures small { result ≤ 60 }
{
    4 * (bytes[at] & 0x0f)
}

/// Returns the offset of the transport header, if the checksum of the IPv4 header is right, the
/// datagram is not a fragment, and its protocol is translated.
fn read_header(bytes: &[u8]) -> Result<u8, Cause>
    requires long { 20 ≤ header_length 0 bytes.now }
    requires there { header_length 0 bytes.now ≤ length bytes.now }
    ensures checks { result_err result ≡ refusal (header_checks bytes.now) }
    ensures start { IfOk result (λ start. start ≡ transport_start 0 bytes.now) }
{
    let start = read_header_length(bytes, 0);
    if !is_right(&bytes[..usize::from(start)]) {
        return Err(Cause::BadChecksum);
    }
    if is_fragment(bytes) {
        return Err(Cause::Fragment);
    }
    if !is_known(bytes[9]) {
        return Err(Cause::Unsupported);
    }
    Ok(start)
}

/// Returns whether a datagram is a fragment: MF is set, or the fragment offset is not 0.
fn is_fragment(bytes: &[u8]) -> bool
    requires { 20 ≤ length bytes.now }
    ensures { result ≡ (has_more_fragments 0 bytes.now || not (fragment_offset 0 bytes.now == 0)) }
{
    let word = read_u16(bytes, 6);
    word & 0x2000 != 0 || word & 0x1fff != 0
}

/// Returns whether a protocol number is that of ICMP, TCP or UDP.
fn is_known(protocol: u8) -> bool
    ensures { result ≡ is_known_protocol protocol }
{
    protocol == 1 || protocol == 6 || protocol == 17
}

/// Returns the body of a datagram whose transport header begins at `start`, if it is valid.
#[tactic(auto, unfolding(crate::specs::Fields::flags))]
fn read_body(side: Side, bytes: &[u8], start: usize) -> Result<Body, Cause>
    requires long { 20 ≤ start }
    requires there { start ≤ length bytes.now }
    requires small { length bytes.now ≤ 65535 }
    requires start { start ≡ transport_start 0 bytes.now }
    ensures checks { result_err result ≡ refusal (body_checks side bytes.now) }
    ensures body { IfOk result (λ body. body ≡ body_of (form_at 0 bytes.now) bytes.now) }
{
    if bytes.len() < start + 8 {
        return Err(Cause::BadHeader);
    }
    let form = TransportForm::from_protocol(bytes, 0, start);
    if has_bad_transport(form, &bytes[start..]) {
        return Err(Cause::BadHeader);
    }
    if !is_translated(side, form, bytes[start]) {
        return Err(Cause::Unsupported);
    }
    if has_zero_port(bytes, start, form) {
        return Err(Cause::BadPort);
    }
    match form {
        TransportForm::Udp => Ok(Body::Udp),
        TransportForm::Tcp => Ok(Body::Tcp(read_flags(bytes[start + 13]))),
        TransportForm::Request => Ok(Body::Request),
        TransportForm::Reply => Ok(Body::Reply),
        TransportForm::Error => match read_quoted(side, bytes, start) {
            Ok(quoted) => Ok(Body::Error(quoted)),
            Err(cause) => Err(cause),
        },
    }
}

/// Returns whether a transport header is too short or has an invalid length field.
fn has_bad_transport(form: TransportForm, payload: &[u8]) -> bool
    requires { 8 ≤ length payload.now }
    ensures { result ≡ has_bad_transport form payload.now }
{
    match form {
        TransportForm::Udp => {
            let length = usize::from(read_u16(payload, 4));
            length < 8 || payload.len() < length
        }
        TransportForm::Tcp => {
            if payload.len() < 20 {
                return true;
            }
            let offset = usize::from(payload[12] >> 4);
            offset < 5 || payload.len() < 4 * offset
        }
        TransportForm::Request | TransportForm::Reply | TransportForm::Error => false,
    }
}

/// Returns whether a message of this form and ICMP type is translated if it comes from `side`.
fn is_translated(side: Side, form: TransportForm, icmp_type: u8) -> bool
    ensures { result ≡ is_translated_message side form icmp_type }
{
    match (form, side) {
        (TransportForm::Udp | TransportForm::Tcp, _) => true,
        (TransportForm::Request, Side::Inside) | (TransportForm::Reply, Side::Outside) => true,
        (TransportForm::Request, Side::Outside) | (TransportForm::Reply, Side::Inside) => false,
        (TransportForm::Error, _) => icmp_type == 3 || icmp_type == 11 || icmp_type == 12,
    }
}

/// Returns whether the transport header at `start` has a port that is 0.
fn has_zero_port(bytes: &[u8], start: usize, form: TransportForm) -> bool
    requires { start + 8 ≤ length bytes.now }
    ensures { result ≡ has_zero_port form start bytes.now }
{
    match form {
        TransportForm::Udp | TransportForm::Tcp => read_u16(bytes, start) == 0
            || read_u16(bytes, start + 2) == 0,
        TransportForm::Request | TransportForm::Reply | TransportForm::Error => false,
    }
}

/// Returns the control bits of a TCP header (RFC 9293 section 3.1).
fn read_flags(bits: u8) -> Flags
    ensures { result ≡ flags_of bits }
{
    Flags {
        fin: bits & 1 != 0,
        syn: bits & 2 != 0,
        rst: bits & 4 != 0,
        ack: bits & 16 != 0,
    }
}

/// Checks an ICMP error whose message begins at `start`, and returns what it quotes.
fn read_quoted(side: Side, bytes: &[u8], start: usize) -> Result<QuotedHeader, Cause>
    requires long { 20 ≤ start }
    requires there { start + 8 ≤ length bytes.now }
    requires small { length bytes.now ≤ 65535 }
    requires start { start ≡ transport_start 0 bytes.now }
    ensures checks { result_err result ≡ refusal (error_checks side bytes.now) }
    ensures quoted { IfOk result (λ quoted. quoted ≡ quoted_of bytes.now) }
{
    if !is_right(&bytes[start..]) {
        return Err(Cause::BadChecksum);
    }
    let at = start + 8;
    let Some(inner) = read_inner(side, bytes, at) else {
        return Err(Cause::BadInner);
    };
    if has_zero_port(bytes, inner.start, inner.form) {
        return Err(Cause::BadPort);
    }
    Ok(QuotedHeader {
        form: inner.form,
        start: inner.start as u16,
    })
}

/// Returns the headers of the quoted datagram at `at`, if that can have been translated in the
/// other direction (RFC 5508 section 4).
#[tactic(auto, unfolding(crate::specs::Reading::has_bad_inner))]
fn read_inner(side: Side, bytes: &[u8], at: usize) -> Option<Header>
    requires there { at ≤ length bytes.now }
    requires outer { 20 ≤ length bytes.now }
    requires small { length bytes.now ≤ 65535 }
    ensures bad { is_none result ≡ has_bad_inner side at bytes.now }
    ensures header { IfSome result (λ header. IsHeader at header bytes.now) }
{
    if bytes.len() < at + 20 || bytes[at] >> 4 != 4 {
        return None;
    }
    let header = usize::from(read_header_length(bytes, at));
    let start = at + header;
    if header < 20 || bytes.len() < start + 8 || !is_right(&bytes[at..start]) {
        return None;
    }
    if read_u16(bytes, at + 6) & 0x1fff != 0 || !is_known(bytes[at + 9]) {
        return None;
    }
    let form = TransportForm::from_protocol(bytes, at, start);
    if !is_quoted(side, form) || read_u32(bytes, at + 12) != read_u32(bytes, 16) {
        return None;
    }
    Some(Header { at, start, form })
}

/// Returns whether an error from `side` may quote a datagram of this form.
fn is_quoted(side: Side, form: TransportForm) -> bool
    ensures { result ≡ is_quotable side form }
{
    match (form, side) {
        (TransportForm::Udp | TransportForm::Tcp, _) => true,
        (TransportForm::Request, Side::Outside) | (TransportForm::Reply, Side::Inside) => true,
        (TransportForm::Request, Side::Inside) | (TransportForm::Reply, Side::Outside) => false,
        (TransportForm::Error, _) => false,
    }
}
