//! The classes of external numbers (RFC 4787, REQ-3 (a) and REQ-4; RFC 7857, section 8; RFC 5508,
//! section 3.1; RFC 7422, section 2).

ghost use Rattle.std.specs.Prelude.{◌≡◌, ◌+◌, ◌-◌, ◌*◌, ◌/◌, ◌^◌, ◌<◌, ◌≤◌};
ghost use Rattle.napt_config.specs.Rules.{IsPortBlock};
ghost use Rattle.napt_table.specs.Classes.{class_of, class_in_block, class_of_block, IsSearched};

use napt_config::PortBlock;
use napt_wire::Protocol;

/// A class of external numbers: the least one, their count, and the step from one to the next.
#[derive(Clone, Copy)]
pub struct CandidateClass {
    pub least: u32,
    pub count: u32,
    pub step: u32,
}

/// Returns a number's class: for a port, its side of 1024 and, if `keeps_parity`, its parity.
pub(crate) fn class_of(keeps_parity: bool, protocol: Protocol, number: u16) -> CandidateClass
    ensures value { result ≡ class_of keeps_parity protocol number }
    ensures small { number < 2 ^ 16 }
    ensures some { 0 < result.count }
    ensures searched { IsSearched result }
    ensures within { (number - result.least) / result.step ≤ result.count }
{
    let (least, count, step) = match (protocol, keeps_parity, number < 1024, number % 2 == 1) {
        (Protocol::Icmp, _, _, _) => (0, 65_536, 1),
        (_, true, true, true) => (1, 512, 2),
        (_, true, true, false) => (2, 511, 2),
        (_, true, false, true) => (1025, 32_256, 2),
        (_, true, false, false) => (1024, 32_256, 2),
        (_, false, true, _) => (1, 1023, 1),
        (_, false, false, _) => (1024, 64_512, 1),
    };
    CandidateClass { least, count, step }
}

/// Returns the numbers of a port block that have a parity, 0 or 1.
pub(crate) fn class_in_block(block: PortBlock, parity: u16) -> CandidateClass
    requires block { IsPortBlock block }
    requires parity { parity < 2 }
    ensures { result ≡ class_in_block block parity }
{
    CandidateClass {
        least: u32::from(block.first) + u32::from(parity),
        count: u32::from(block.size / 2),
        step: 2,
    }
}

/// Returns all numbers of a port block.
pub(crate) fn class_of_block(block: PortBlock) -> CandidateClass
    ensures { result ≡ class_of_block block }
{
    CandidateClass {
        least: u32::from(block.first),
        count: u32::from(block.size),
        step: 1,
    }
}
