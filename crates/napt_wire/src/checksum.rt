//! Internet checksums: verification over bytes, and updates when words are replaced.

ghost use Rattle.std.specs.Prelude.{◌≡◌, ◌≤◌, ◌==◌, [], ◌∷◌, length, if◌then◌else◌};
ghost use Rattle.napt_wire.specs.{Checksum.{canon, canon_udp, is_right}, Bytes.words, Rewriting.{address_words, end_words}};

use crate::Endpoint;
use crate::bytes::{read_u16, read_u32};

/// Returns the checksum after a 16-bit word that it covers changes from `old` to `new`, all in host
/// order. The result is never 0xFFFF: where RFC 1624 equation 3 gives 0xFFFF, this returns 0, which
/// is the same one's complement value.
pub fn fix_check(check: u16, old: u16, new: u16) -> u16
    ensures { result ≡ canon check (old ∷ []) (new ∷ []) }
{
    // RFC 1624 equation 3: HC' = ~(~HC + ~m + m')
    let sum = u32::from(!check) + u32::from(!old) + u32::from(new);
    let once = (sum >> 16) + (sum & 0xffff);
    let folded = (once >> 16) + (once & 0xffff);
    if folded == 0 {
        return 0x0000;
    }
    (0xffff - folded) as u16
}

/// Returns the UDP checksum after a word that it covers changes from `old` to `new` (RFC 768). A
/// checksum of 0 means that there is none, and is returned unchanged; any other result of 0 is
/// returned as 0xFFFF.
#[tactic(auto, unfolding(crate::specs::Checksum::canon_udp))]
pub fn fix_check_udp(check: u16, old: u16, new: u16) -> u16
    ensures { result ≡ canon_udp check (old ∷ []) (new ∷ []) }
{
    if check == 0 {
        return 0;
    }
    udp_check_as_sent(fix_check(check, old, new))
}

/// Returns a UDP checksum as it is sent: 0xFFFF for 0, which would mean that there is none.
fn udp_check_as_sent(check: u16) -> u16
    ensures { result ≡ (if check == 0 then 65535 else check) }
{
    if check == 0 { 0xffff } else { check }
}

/// Returns the checksum after an address that it covers changes from `old` to `new`.
pub(crate) fn fix_address(check: u16, old: u32, new: u32) -> u16
    ensures { result ≡ canon check (address_words old) (address_words new) }
{
    let high = fix_check(check, (old >> 16) as u16, (new >> 16) as u16);
    fix_check(high, (old & 0xffff) as u16, (new & 0xffff) as u16)
}

/// Returns the TCP checksum after an endpoint changes from `old` to `new`. The checksum covers the
/// port and, through the pseudo-header, the address (RFC 9293 section 3.1).
pub(crate) fn fix_end(check: u16, old: Endpoint, new: Endpoint) -> u16
    ensures { result ≡ canon check (end_words old) (end_words new) }
{
    let fixed = fix_address(check, old.address, new.address);
    fix_check(fixed, old.number, new.number)
}

/// Returns the UDP checksum after an endpoint changes from `old` to `new` (RFC 768). The result is
/// 0 if and only if `check` is 0, which means that there is no checksum.
pub(crate) fn fix_end_udp(check: u16, old: Endpoint, new: Endpoint) -> u16
    ensures { result ≡ canon_udp check (end_words old) (end_words new) }
{
    if check == 0 {
        return 0;
    }
    let fixed = fix_address(check, old.address, new.address);
    udp_check_as_sent(fix_check(fixed, old.number, new.number))
}

/// Returns whether the sum of the 16-bit words is a multiple of 65535 (RFC 1071). An odd last byte
/// is padded with a zero byte. 32-bit words have the same residue (section 2 (B)).
pub(crate) fn is_right(bytes: &[u8]) -> bool
    requires { length bytes.now ≤ 65535 }
    ensures { result ≡ is_right (words bytes.now) }
{
    let mut sum = 0u64;
    let mut rest = bytes;
    while let [_, _, _, _, tail @ ..] = rest {
        sum += u64::from(read_u32(rest, 0));
        rest = tail;
    }
    if let [_, _, tail @ ..] = rest {
        sum += u64::from(read_u16(rest, 0));
        rest = tail;
    }
    if let [last] = rest {
        sum += u64::from(*last) * 256;
    }
    sum % 0xffff == 0
}
