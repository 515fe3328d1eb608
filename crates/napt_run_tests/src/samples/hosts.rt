//! Inside hosts (RFC 1918), external addresses and outside hosts (RFC 5737), and one second.

ghost use Rattle.std.specs.Prelude.{◌≡◌, ◌+◌};

use napt_wire::Endpoint;

/// One second, in ns.
pub const SECOND: u64 = 1_000_000_000;

/// The inside endpoint 10.0.0.2:5000.
pub const CLIENT: Endpoint = Endpoint {
    address: 0x0A00_0002,
    number: 5000,
};

/// The inside endpoint 10.0.0.3:5000.
pub const SECOND_CLIENT: Endpoint = Endpoint {
    address: 0x0A00_0003,
    number: 5000,
};

/// The outside endpoint 198.51.100.7:53.
pub const RESOLVER: Endpoint = Endpoint {
    address: 0xC633_6407,
    number: 53,
};

/// Returns the inside endpoint with the address 10.0.0.0 + `many` and this port or identifier.
pub fn host(many: u16, number: u16) -> Endpoint
    ensures address { result.address ≡ 0x0A00_0000 + many }
    ensures number { result.number ≡ number }
{
    Endpoint {
        address: 0x0A00_0000 + u32::from(many),
        number,
    }
}

/// Returns the external endpoint with the address 203.0.113.0 + `many` and this port or identifier.
pub fn external(many: u16, number: u16) -> Endpoint
    ensures address { result.address ≡ 0xCB00_7100 + many }
    ensures number { result.number ≡ number }
{
    Endpoint {
        address: 0xCB00_7100 + u32::from(many),
        number,
    }
}
