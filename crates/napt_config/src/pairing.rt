//! The external address with which a host is paired.
ghost use Rattle.std.specs.Prelude.{◌≡◌, ◌≤◌, length, unwrap_or};
ghost use Rattle.napt_config.specs.{Prefixes.host_index, Rules.{paired_address, paired_with, pool_address_for}};

use crate::{Prefix, blocks};
use std::collections::BTreeMap;

/// Returns the pool's address at the number modulo the size of the pool.
fn pooled(pool: &[u32], number: u64) -> u32
    requires some { 1 ≤ length pool.now }
    ensures { result ≡ pool_address_for pool.now number }
{
    pool[(number % pool.len() as u64) as usize]
}

/// Returns the external address of a host with a block: the pool's at the host's index.
fn pair_by_index(inside: &[Prefix], pool: &[u32], host: u32) -> u32
    requires some { 1 ≤ length pool.now }
    requires few { length inside.now ≤ 16 }
    ensures { result ≡ pool_address_for pool.now (unwrap_or (host_index inside.now host) host) }
{
    match blocks::index_of(inside, host) {
        Some(index) => pooled(pool, index),
        None => pooled(pool, u64::from(host)),
    }
}

/// Returns the external address of a host without a block: the address in its `pair` entry or, if
/// it has none, the pool address at the host's address, as a number, modulo the pool's size.
fn pair_by_entry(pool: &[u32], pairs: &BTreeMap<u32, u32>, host: u32) -> u32
    requires some { 1 ≤ length pool.now }
    ensures { result ≡ unwrap_or (paired_with pairs.now.entries host)
        (pool_address_for pool.now host) }
{
    match pairs.get(&host) {
        Some(external) => *external,
        None => pooled(pool, u64::from(host)),
    }
}

/// Returns the external address of a host. Without blocks it is that of its entry, or else the
/// pool's at the host's number modulo the pool's size; with blocks, at the host's index modulo it.
#[tactic(auto, unfolding(crate::specs::Rules::paired_address))]
pub(crate) fn pair(
    block: Option<u16>,
    inside: &[Prefix],
    pool: &[u32],
    pairs: &BTreeMap<u32, u32>,
    host: u32,
) -> u32
    requires some { 1 ≤ length pool.now }
    requires few { length inside.now ≤ 16 }
    ensures { result ≡ paired_address block inside.now pool.now pairs.now.entries host }
{
    match block {
        Some(_) => pair_by_index(inside, pool, host),
        None => pair_by_entry(pool, pairs, host),
    }
}
