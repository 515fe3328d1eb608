//! Reads the keys of a configuration's table, each by its own rules.
ghost use Rattle.std.specs.{Prelude.{◌≡◌, ◌≤◌, length}, List.list_any};
ghost use Rattle.toml.specs.View.{view, table_view, items_view};
ghost use Rattle.napt_config.specs.{Fault.{ReadPost, MakePost, FirstFaultComesFirst}, Prefixes.prefixes_have};
ghost use Rattle.napt_config.specs.Configured.{list_up_to, short_list, with_address, each_in_order, first_in_order, pool_in, with_prefix, prefixes_in, inside_in, filter_in, refresh_in, timer_at, timers_at, idle_timers_in, timers_in, ring_in, quota_in, block_size_at, block_size, block_size_in, address_in, with_pair, pairs_at, pairs_in, optional};

use crate::values::{list_in, number_at, required, table_in, text_in, value_at};
use crate::{ConfigFault, ConfigPlace, Filter, MappingRefresh, Prefix, Timers, blocks, text};
use std::alloc::Global;
use std::collections::BTreeMap;
use toml::{Table, Value};

/// The maximum number of entries in `pool` and in `inside`.
const MOST_ENTRIES: usize = 16;

/// The maximum number of entries of `pair`.
const MOST_PAIRS: usize = 256;

/// The longest timer, in seconds.
const MOST_SECONDS: u64 = 1_000_000_000;

/// The maximum number of slots of a ring.
const MOST_SLOTS: u64 = 4096;

/// The maximum number of bindings that a quota may allow.
const MOST_BINDINGS: u64 = 65535;

/// The minimum and the maximum number of external numbers in a block.
const LEAST_BLOCK: u64 = 64;

const MOST_BLOCK: u64 = 32256;

/// The default number of slots of a ring.
pub(crate) const DEFAULT_SLOTS: usize = 64;

/// Returns the list in a value, which may have at most `most` entries.
#[tactic(auto, unfolding(crate::specs::Configured::list_up_to), using(crate::proofs::Entries::items_are_counted))]
pub(crate) fn list_up_to(most: usize, value: &Value) -> Result<&[Value], ConfigFault>
    ensures { ReadPost (λ entries. items_view entries.now) result (list_up_to most (view value.now)) }
{
    let entries = list_in(value)?;
    if entries.len() > most {
        return Err(ConfigFault::TooMany);
    }
    Ok(entries)
}

/// Returns the list at a required key, which must have 1 to 16 entries.
#[tactic(auto, unfolding(crate::specs::Configured::short_list), using(crate::proofs::Entries::items_are_counted))]
fn short_list<'a>(table: &'a Table, key: &str) -> Result<&'a [Value], ConfigFault>
    ensures { ReadPost (λ entries. items_view entries.now) result
        (short_list key.now (table_view table.now)) }
{
    let entries = list_up_to(MOST_ENTRIES, required(table, key)?)?;
    if entries.is_empty() {
        return Err(ConfigFault::Missing);
    }
    Ok(entries)
}

// ---- pool

#[tactic(auto, unfolding(crate::specs::Configured::with_address))]
fn add_address(pool: &mut Vec<u32>, entry: &Value) -> Result<(), ConfigFault>
    ensures exact { MakePost (λ _. pool.new.items) result
        (with_address pool.old.items (view entry.now)) }
    ensures first { FirstFaultComesFirst (with_address pool.old.items (view entry.now)) result }
{
    let address = text::address(text_in(entry)?).ok_or(ConfigFault::BadAddress)?;
    if pool.contains(&address) {
        return Err(ConfigFault::DuplicateAddress);
    }
    pool.push(address)?;
    Ok(())
}

/// Reads the pool: 1 to 16 addresses, none of them twice.
#[tactic(auto, unfolding(crate::specs::Configured::pool_in))]
pub(crate) fn pool(
    alloc: Global,
    table: &Table,
    place: &mut ConfigPlace,
) -> Result<Vec<u32>, ConfigFault>
    ensures exact { MakePost (λ pool. pool.items) result
        (pool_in each_in_order (table_view table.now)) }
    ensures first { FirstFaultComesFirst (pool_in first_in_order (table_view table.now)) result }
{
    place.at_key("pool");
    let entries = short_list(table, "pool")?;
    let mut pool = Vec::new(alloc);
    for entry in entries {
        place.at_next_entry();
        add_address(&mut pool, entry)?;
    }
    Ok(pool)
}

// ---- inside

#[tactic(auto, unfolding(crate::specs::Configured::with_prefix))]
fn add_prefix(inside: &mut Vec<Prefix>, entry: &Value) -> Result<(), ConfigFault>
    ensures exact { MakePost (λ _. inside.new.items) result
        (with_prefix inside.old.items (view entry.now)) }
    ensures first { FirstFaultComesFirst (with_prefix inside.old.items (view entry.now)) result }
{
    let prefix = Prefix::read(text_in(entry)?).ok_or(ConfigFault::BadPrefix)?;
    inside.push(prefix)?;
    Ok(())
}

/// Reads the prefixes at the key `inside`, of which there must be 1 to 16.
#[tactic(auto, unfolding(crate::specs::Configured::prefixes_in))]
fn prefixes(
    alloc: Global,
    table: &Table,
    place: &mut ConfigPlace,
) -> Result<Vec<Prefix>, ConfigFault>
    ensures exact { MakePost (λ inside. inside.items) result
        (prefixes_in each_in_order (table_view table.now)) }
    ensures first { FirstFaultComesFirst (prefixes_in first_in_order (table_view table.now)) result }
{
    place.at_key("inside");
    let entries = short_list(table, "inside")?;
    let mut inside = Vec::new(alloc);
    for entry in entries {
        place.at_next_entry();
        add_prefix(&mut inside, entry)?;
    }
    Ok(inside)
}

/// Returns whether the address is in one of the prefixes.
pub(crate) fn have_address(prefixes: &[Prefix], address: u32) -> bool
    ensures { result ≡ prefixes_have prefixes.now address }
{
    prefixes.iter().any(|prefix| prefix.contains(address))
}

/// Returns whether one of the addresses is in one of the prefixes.
fn have_any(prefixes: &[Prefix], addresses: &[u32]) -> bool
    ensures { result ≡ list_any (prefixes_have prefixes.now) addresses.now }
{
    addresses
        .iter()
        .any(|address| have_address(prefixes, *address))
}

/// Reads the inside prefixes: 1 to 16, none of which has an address of the pool.
#[tactic(auto, unfolding(crate::specs::Configured::inside_in))]
pub(crate) fn inside(
    alloc: Global,
    table: &Table,
    pool: &[u32],
    place: &mut ConfigPlace,
) -> Result<Vec<Prefix>, ConfigFault>
    ensures exact { MakePost (λ inside. inside.items) result
        (inside_in pool.now (table_view table.now)) }
    ensures first { FirstFaultComesFirst (prefixes_in first_in_order (table_view table.now)) result }
{
    let inside = prefixes(alloc, table, place)?;
    place.at_key("inside");
    if have_any(&inside, pool) {
        return Err(ConfigFault::PoolInside);
    }
    Ok(inside)
}

// ---- words

/// Reads the filter, which is `Filter::Independent` by default.
#[tactic(auto, unfolding(crate::specs::Configured::filter_in, crate::specs::Configured::word_at_key))]
pub(crate) fn filter(table: &Table, place: &mut ConfigPlace) -> Result<Filter, ConfigFault>
    ensures { ReadPost (λ filter. filter) result (filter_in (table_view table.now)) }
{
    place.at_key("filter");
    let Some(value) = value_at(table, "filter") else {
        return Ok(Filter::Independent);
    };
    match text_in(value)? {
        "independent" => Ok(Filter::Independent),
        "address" => Ok(Filter::Address),
        "address-port" => Ok(Filter::AddressPort),
        _ => Err(ConfigFault::BadWord),
    }
}

/// Reads which UDP packets refresh a binding; by default, outgoing packets do.
#[tactic(auto, unfolding(crate::specs::Configured::refresh_in, crate::specs::Configured::word_at_key))]
pub(crate) fn refresh(table: &Table, place: &mut ConfigPlace) -> Result<MappingRefresh, ConfigFault>
    ensures { ReadPost (λ refresh. refresh) result (refresh_in (table_view table.now)) }
{
    place.at_key("refresh");
    let Some(value) = value_at(table, "refresh") else {
        return Ok(MappingRefresh::Outbound);
    };
    match text_in(value)? {
        "outbound" => Ok(MappingRefresh::Outbound),
        "both" => Ok(MappingRefresh::Both),
        _ => Err(ConfigFault::BadWord),
    }
}

// ---- timers

#[tactic(auto, unfolding(crate::specs::Configured::timer_at))]
fn timer_at(value: &Value, least: u64) -> Result<u64, ConfigFault>
    ensures { ReadPost (λ seconds. seconds) result (timer_at least (view value.now)) }
{
    let seconds = number_at(value, 0, MOST_SECONDS)?;
    if seconds < least {
        return Err(ConfigFault::TimerTooShort);
    }
    Ok(seconds)
}

/// Reads the seconds at a key, at least `least`, or returns the default if the key is absent.
fn timer(table: &Table, key: &str, least: u64, default: u64) -> Result<u64, ConfigFault>
    ensures { ReadPost (λ seconds. seconds) result (optional key.now default (timer_at least)
        (table_view table.now)) }
{
    match value_at(table, key) {
        Some(value) => timer_at(value, least),
        None => Ok(default),
    }
}

#[tactic(auto, unfolding(crate::specs::Configured::timers_at))]
fn timers_at(value: &Value, place: &mut ConfigPlace) -> Result<Timers, ConfigFault>
    ensures { ReadPost (λ timers. timers) result (timers_at (view value.now)) }
{
    let table = table_in(value)?;
    place.at_field("udp");
    let udp = timer(table, "udp", 120, 300)?;
    place.at_field("tcp-established");
    let established = timer(table, "tcp-established", 7440, 7440)?;
    place.at_field("tcp-transitory");
    let transitory = timer(table, "tcp-transitory", 240, 240)?;
    place.at_field("icmp");
    let icmp = timer(table, "icmp", 60, 60)?;
    Ok(Timers {
        udp,
        established,
        transitory,
        icmp,
        hold: 0,
    })
}

/// Reads the idle timers; their hold is 0.
#[tactic(auto, unfolding(crate::specs::Configured::idle_timers_in))]
fn idle_timers(table: &Table, place: &mut ConfigPlace) -> Result<Timers, ConfigFault>
    ensures { ReadPost (λ timers. timers) result (idle_timers_in (table_view table.now)) }
{
    place.at_key("timers");
    match value_at(table, "timers") {
        Some(value) => timers_at(value, place),
        None => Ok(Timers::DEFAULT),
    }
}

/// Reads the idle timers and the hold.
#[tactic(auto, unfolding(crate::specs::Configured::timers_in))]
pub(crate) fn timers(table: &Table, place: &mut ConfigPlace) -> Result<Timers, ConfigFault>
    ensures { ReadPost (λ timers. timers) result (timers_in (table_view table.now)) }
{
    let idle = idle_timers(table, place)?;
    place.at_key("hold");
    let hold = timer(table, "hold", 0, 0)?;
    Ok(Timers { hold, ..idle })
}

// ---- ring

/// Reads the number of slots of each ring.
#[tactic(auto, unfolding(crate::specs::Configured::ring_in))]
pub(crate) fn ring(table: &Table, place: &mut ConfigPlace) -> Result<usize, ConfigFault>
    ensures { ReadPost (λ slots. slots) result (ring_in (table_view table.now)) }
{
    place.at_key("ring");
    match value_at(table, "ring") {
        Some(value) => Ok(number_at(value, 1, MOST_SLOTS)? as usize),
        None => Ok(DEFAULT_SLOTS),
    }
}

// ---- quota

/// Reads how many bindings a host may have; `None` if the key is absent.
#[tactic(auto, unfolding(crate::specs::Configured::quota_in, crate::specs::Configured::quota_at))]
pub(crate) fn quota(table: &Table, place: &mut ConfigPlace) -> Result<Option<u16>, ConfigFault>
    ensures { ReadPost (λ quota. quota) result (quota_in (table_view table.now)) }
{
    place.at_key("quota");
    match value_at(table, "quota") {
        Some(value) => Ok(Some(number_at(value, 1, MOST_BINDINGS)? as u16)),
        None => Ok(None),
    }
}

// ---- block

/// Reads the number of external numbers in a block, which must be even.
#[tactic(auto, unfolding(crate::specs::Configured::block_size_at))]
fn block_size_at(value: &Value) -> Result<u16, ConfigFault>
    ensures { ReadPost (λ size. size) result (block_size_at (view value.now)) }
{
    let size = number_at(value, LEAST_BLOCK, MOST_BLOCK)?;
    if size % 2 != 0 {
        return Err(ConfigFault::BadNumber);
    }
    Ok(size as u16)
}

#[tactic(auto, unfolding(crate::specs::Configured::block_size))]
fn block_size(
    table: &Table,
    value: &Value,
    pool: &[u32],
    inside: &[Prefix],
    hold: u64,
) -> Result<Option<u16>, ConfigFault>
    requires some { 1 ≤ length pool.now }
    requires few_addresses { length pool.now ≤ 16 }
    requires few { length inside.now ≤ 16 }
    ensures { ReadPost (λ block. block) result
        (block_size pool.now inside.now hold (table_view table.now) (view value.now)) }
{
    let size = block_size_at(value)?;
    if !blocks::are_apart(inside) {
        return Err(ConfigFault::PrefixesOverlap);
    }
    if !blocks::have_room(size, inside, pool.len()) {
        return Err(ConfigFault::BlockTooLarge);
    }
    if value_at(table, "pair").is_some() {
        return Err(ConfigFault::PairWithBlock);
    }
    if hold != 0 {
        return Err(ConfigFault::HoldWithBlock);
    }
    Ok(Some(size))
}

/// Reads the size of the hosts' blocks, with which every inside host must have a block.
#[tactic(auto, unfolding(crate::specs::Configured::block_size_in))]
pub(crate) fn block(
    table: &Table,
    pool: &[u32],
    inside: &[Prefix],
    hold: u64,
    place: &mut ConfigPlace,
) -> Result<Option<u16>, ConfigFault>
    requires some { 1 ≤ length pool.now }
    requires few_addresses { length pool.now ≤ 16 }
    requires few { length inside.now ≤ 16 }
    ensures { ReadPost (λ block. block) result
        (block_size_in pool.now inside.now hold (table_view table.now)) }
{
    place.at_key("block");
    match value_at(table, "block") {
        Some(value) => block_size(table, value, pool, inside, hold),
        None => Ok(None),
    }
}

// ---- pair

/// Reads the address at a required key.
#[tactic(auto, unfolding(crate::specs::Configured::address_in))]
fn address_in(table: &Table, key: &'static str, place: &mut ConfigPlace) -> Result<u32, ConfigFault>
    ensures { ReadPost (λ address. address) result (address_in key.now (table_view table.now)) }
{
    place.at_field(key);
    let text = text_in(required(table, key)?)?;
    text::address(text).ok_or(ConfigFault::BadAddress)
}

#[tactic(auto, unfolding(crate::specs::Configured::with_pair))]
fn add_pair(
    pairs: &mut BTreeMap<u32, u32>,
    entry: &Value,
    pool: &[u32],
    inside: &[Prefix],
    place: &mut ConfigPlace,
) -> Result<(), ConfigFault>
    ensures exact { MakePost (λ _. pairs.new.entries) result
        (with_pair pool.now inside.now pairs.old.entries (view entry.now)) }
    ensures first { FirstFaultComesFirst (with_pair pool.now inside.now pairs.old.entries
        (view entry.now))
        result }
{
    let table = table_in(entry)?;
    let host = address_in(table, "host", place)?;
    if !have_address(inside, host) {
        return Err(ConfigFault::NotInside);
    }
    let external = address_in(table, "external", place)?;
    if !pool.contains(&external) {
        return Err(ConfigFault::NotInPool);
    }
    place.at_entry();
    if pairs.contains_key(&host) {
        return Err(ConfigFault::DuplicatePair);
    }
    pairs.insert(host, external)?;
    Ok(())
}

#[tactic(auto, unfolding(crate::specs::Configured::pairs_at))]
fn pairs_at(
    alloc: Global,
    value: &Value,
    pool: &[u32],
    inside: &[Prefix],
    place: &mut ConfigPlace,
) -> Result<BTreeMap<u32, u32>, ConfigFault>
    ensures exact { MakePost (λ pairs. pairs.entries) result
        (pairs_at each_in_order pool.now inside.now (view value.now)) }
    ensures first { FirstFaultComesFirst
        (pairs_at first_in_order pool.now inside.now (view value.now)) result }
{
    let entries = list_up_to(MOST_PAIRS, value)?;
    let mut pairs = BTreeMap::new(alloc);
    for entry in entries {
        place.at_next_entry();
        add_pair(&mut pairs, entry, pool, inside, place)?;
    }
    Ok(pairs)
}

/// Reads the pairs: at most 256 inside hosts, each once and with an address of the pool.
#[tactic(auto, unfolding(crate::specs::Configured::pairs_in))]
pub(crate) fn pairs(
    alloc: Global,
    table: &Table,
    pool: &[u32],
    inside: &[Prefix],
    place: &mut ConfigPlace,
) -> Result<BTreeMap<u32, u32>, ConfigFault>
    ensures exact { MakePost (λ pairs. pairs.entries) result
        (pairs_in each_in_order pool.now inside.now (table_view table.now)) }
    ensures first { FirstFaultComesFirst (pairs_in first_in_order pool.now inside.now
        (table_view table.now))
        result }
{
    place.at_key("pair");
    match value_at(table, "pair") {
        Some(value) => pairs_at(alloc, value, pool, inside, place),
        None => Ok(BTreeMap::new(alloc)),
    }
}
