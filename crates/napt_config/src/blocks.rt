//! Port blocks: the external numbers that each inside host has for itself (RFC 7422, section 2).
ghost use Rattle.std.specs.{Prelude.{◌≡◌, ◌≤◌, ◌*◌, ◌^◌, IfSome, length}, List.list_any};
ghost use Rattle.napt_config.specs.Prefixes.{host_count, do_prefixes_meet, are_prefixes_apart, host_index, address_at};
ghost use Rattle.napt_config.specs.Rules.{block_has_number, block_in, may_redirect, have_room, host_at, IsPortBlock};

use crate::{PortBlock, Prefix};

/// The least number that a block may have.
const FIRST_NUMBER: u64 = 1024;

/// The count of the numbers from `FIRST_NUMBER` to 65535.
const MOST_NUMBERS: u64 = 64512;

/// Returns the number of addresses that the prefixes have together.
pub(crate) fn host_count(prefixes: &[Prefix]) -> u64
    requires few { length prefixes.now ≤ 16 }
    ensures count { result ≡ host_count prefixes.now }
    ensures bound { result ≤ 16 * 2 ^ 32 }
{
    let mut hosts = 0;
    for prefix in prefixes {
        hosts += prefix.size();
    }
    hosts
}

fn meets_any(prefix: &Prefix, others: &[Prefix]) -> bool
    ensures { result ≡ list_any (do_prefixes_meet prefix.now) others.now }
{
    others.iter().any(|other| prefix.meets(other))
}

/// Returns whether no two of the prefixes have an address in common.
pub(crate) fn are_apart(prefixes: &[Prefix]) -> bool
    ensures { result ≡ are_prefixes_apart prefixes.now }
{
    let mut rest = prefixes;
    while let Some((prefix, others)) = rest.split_first() {
        if meets_any(prefix, others) {
            return false;
        }
        rest = others;
    }
    true
}

/// Returns whether all hosts of the prefixes have blocks of this size, at `addresses` addresses.
pub(crate) fn have_room(size: u16, prefixes: &[Prefix], addresses: usize) -> bool
    requires few { length prefixes.now ≤ 16 }
    requires some { 1 ≤ addresses }
    requires few_addresses { addresses ≤ 16 }
    ensures { result ≡ have_room size prefixes.now addresses }
{
    let addresses = addresses as u64;
    let most_hosts = (host_count(prefixes) + (addresses - 1)) / addresses;
    most_hosts * u64::from(size) <= MOST_NUMBERS
}

/// Returns the index of the address among those of the prefixes, prefix after prefix, from 0.
pub(crate) fn index_of(prefixes: &[Prefix], address: u32) -> Option<u64>
    requires few { length prefixes.now ≤ 16 }
    ensures { result ≡ host_index prefixes.now address }
{
    let mut before = 0;
    for prefix in prefixes {
        if prefix.contains(address) {
            return Some(before + prefix.place(address));
        }
        before += prefix.size();
    }
    None
}

/// Returns the address at an index, from 0, among those of the prefixes, prefix after prefix.
fn address_at(prefixes: &[Prefix], index: u64) -> Option<u32>
    ensures { result ≡ address_at prefixes.now index }
{
    let mut place = index;
    for prefix in prefixes {
        if place < prefix.size() {
            return Some(prefix.address_at(place));
        }
        place -= prefix.size();
    }
    None
}

/// Returns the block of a host, or `None` if there are no blocks or the host is not inside.
#[tactic(auto, unfolding(crate::specs::Rules::block_in))]
pub(crate) fn block_of(
    size: Option<u16>,
    inside: &[Prefix],
    addresses: usize,
    host: u32,
) -> Option<PortBlock>
    requires few { length inside.now ≤ 16 }
    requires some { 1 ≤ addresses }
    requires blocks { IfSome (block_in size inside.now addresses host) IsPortBlock }
    ensures { result ≡ block_in size inside.now addresses host }
{
    let size = size?;
    let index = index_of(inside, host)?;
    let first = FIRST_NUMBER + u64::from(size) * (index / addresses as u64);
    Some(PortBlock {
        first: first as u16,
        size,
    })
}

/// Returns whether the number is in the block.
fn has_number(block: &PortBlock, number: u16) -> bool
    requires high { IsPortBlock block.now }
    ensures { result ≡ block_has_number block.now number }
{
    block.first <= number && number - block.first < block.size
}

/// Returns whether a host with this block may have the number by a redirect.
pub(crate) fn may_redirect(block: Option<PortBlock>, external: u16) -> bool
    requires high { IfSome block IsPortBlock }
    ensures { result ≡ may_redirect block external }
{
    match block {
        Some(block) => u64::from(external) < FIRST_NUMBER || has_number(&block, external),
        None => true,
    }
}

/// Returns the inside host whose block has the number at this place of a pool of `addresses`.
#[tactic(auto, unfolding(crate::specs::Rules::host_at))]
pub(crate) fn host_at(
    size: u16,
    inside: &[Prefix],
    addresses: usize,
    number: u16,
    place: u32,
) -> Option<u32>
    requires sized { 1 ≤ size }
    requires few_addresses { addresses ≤ 16 }
    ensures { result ≡ host_at size inside.now addresses number place }
{
    let number = u64::from(number);
    if number < FIRST_NUMBER {
        return None;
    }
    let nth = (number - FIRST_NUMBER) / u64::from(size);
    address_at(inside, nth * addresses as u64 + u64::from(place))
}
