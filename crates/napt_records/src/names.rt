//! The names of causes, protocols and endpoints in the report and other texts.
ghost use Rattle.std.specs.Prelude.{◌≡◌, Some};
ghost use Rattle.napt_records.specs.Report as model;

use napt_config::Address;
use napt_wire::{Cause, Endpoint, Protocol};
use std::fmt;

/// Returns the name of a cause, such as `no-binding`.
pub fn cause_name(cause: Cause) -> &'static str
    ensures { result.now ≡ model.cause_name cause }
{
    match cause {
        Cause::Truncated => "truncated",
        Cause::NotIpv4 => "not-ipv4",
        Cause::BadHeader => "bad-header",
        Cause::BadChecksum => "bad-checksum",
        Cause::Fragment => "fragment",
        Cause::Unsupported => "unsupported",
        Cause::BadInner => "bad-inner",
        Cause::BadPort => "bad-port",
        Cause::Spoofed => "spoofed",
        Cause::NotOurs => "not-ours",
        Cause::NoBinding => "no-binding",
        Cause::Filtered => "filtered",
        Cause::OverQuota => "over-quota",
        Cause::NoPort => "no-port",
    }
}

/// Returns the name of a protocol, such as `udp`.
pub fn protocol_name(protocol: Protocol) -> &'static str
    ensures { result.now ≡ model.protocol_name protocol }
{
    match protocol {
        Protocol::Icmp => "icmp",
        Protocol::Tcp => "tcp",
        Protocol::Udp => "udp",
    }
}

/// An endpoint that is displayed as in `10.0.0.2:5000`.
#[derive(Clone, Copy, Debug)]
pub struct EndpointText(pub Endpoint);

impl fmt::Display for EndpointText {
    ghost output = { λ text. Some (model.endpoint_text text.0) };

    fn fmt<W: fmt::Write>(&self, f: &mut fmt::Formatter<W>) -> fmt::Result {
        let address = Address(self.0.address);
        let number = self.0.number;
        write!(f, "{address}:{number}")
    }
}
