//! Reads a capture and a configuration.

use crate::refused::CallResult;
use napt_capture::{CaptureFault, Watched, read_capture};
use napt_config::{Config, ConfigFault};
use std::alloc::Global;

/// A capture in microseconds, little-endian, of a packet of four bytes and one of two, at 1 s.
const CAPTURE: [u8; 62] = [
    0xd4, 0xc3, 0xb2, 0xa1, 2, 0, 4, 0, 0, 0, 0, 0, 0, 0, 0, 0, 0xff, 0xff, 0, 0, 0x65, 0, 0, 0, 1,
    0, 0, 0, 0, 0, 0, 0, 4, 0, 0, 0, 4, 0, 0, 0, 1, 2, 3, 4, // the first
    1, 0, 0, 0, 0, 0, 0, 0, 2, 0, 0, 0, 2, 0, 0, 0, 1, 2, // the second
];

/// Each key that a configuration can have.
const CONFIGURATION: &str = r#"
pool = ["203.0.113.1", "203.0.113.2"]
inside = ["10.0.0.0/8", "192.168.0.0/16"]
filter = "address-port"
refresh = "both"
ring = 64
quota = 512
[timers]
udp = 120
tcp-established = 7440
tcp-transitory = 240
icmp = 60
[[pair]]
host = "10.0.0.5"
external = "203.0.113.1"
[[redirect]]
protocol = "tcp"
inside = "10.0.0.3:80"
external = 8080
[[redirect]]
protocol = "udp"
inside = "10.0.0.2:53"
external = 53
"#;

pub(crate) fn capture_ended(alloc: Global) -> Result<(), CallResult> {
    match read_capture(alloc, &mut Watched::new(CAPTURE.as_slice())) {
        Ok(capture) if capture.records.len() == 2 && !capture.cut => Ok(()),
        Ok(_) => Err(CallResult::Wrong("another capture")),
        Err(CaptureFault::Memory) => Err(CallResult::Memory),
        Err(_) => Err(CallResult::Wrong("another fault")),
    }
}

pub(crate) fn configuration_ended(alloc: Global) -> Result<(), CallResult> {
    match Config::read(alloc, CONFIGURATION.as_bytes()) {
        Ok(config) if config.pool().len() == 2 && config.redirects().len() == 2 => Ok(()),
        Ok(_) => Err(CallResult::Wrong("another configuration")),
        Err(ConfigFault::Memory) => Err(CallResult::Memory),
        Err(_) => Err(CallResult::Wrong("another fault")),
    }
}
