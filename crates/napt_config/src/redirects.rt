//! Reads the redirects of a configuration's table.
ghost use Rattle.std.specs.Prelude.{◌≡◌, ◌≤◌, ℕ, length, IfSome};
ghost use Rattle.toml.specs.View.{view, table_view, items_view};
ghost use Rattle.napt_config.specs.{Fault.{ReadPost, MakePost, FirstFaultComesFirst}, Rules.{paired_address, block_in, may_redirect, share_inside, share_external, is_double, IsPortBlock}};
ghost use Rattle.napt_config.specs.Configured.{each_in_order, first_in_order, list_up_to, is_tcp_in, transport_address_in, port_in, redirect_in, have_double_redirect, with_redirect, redirects_at, redirects_in};

use crate::reading::{have_address, list_up_to};
use crate::values::{number_at, required, table_in, text_in, value_at};
use crate::{ConfigFault, ConfigPlace, Prefix, Redirect, TransportAddress, blocks, pairing};
use std::alloc::Global;
use std::collections::BTreeMap;
use toml::{Table, Value};

/// The maximum number of entries of `redirect`.
const MOST_REDIRECTS: usize = 256;

/// Returns whether the protocol of an entry is TCP; otherwise it is UDP.
#[tactic(auto, unfolding(crate::specs::Configured::is_tcp_in, crate::specs::Configured::word_at_key))]
fn is_tcp_in(keys: &Table, place: &mut ConfigPlace) -> Result<bool, ConfigFault>
    ensures { ReadPost (λ tcp. tcp) result (is_tcp_in (table_view keys.now)) }
{
    place.at_field("protocol");
    match text_in(required(keys, "protocol")?)? {
        "tcp" => Ok(true),
        "udp" => Ok(false),
        _ => Err(ConfigFault::BadWord),
    }
}

/// Reads the transport address at a required key.
#[tactic(auto, unfolding(crate::specs::Configured::transport_address_in))]
fn transport_address_in(
    keys: &Table,
    key: &'static str,
    place: &mut ConfigPlace,
) -> Result<TransportAddress, ConfigFault>
    ensures { ReadPost (λ socket. socket) result
        (transport_address_in key.now (table_view keys.now)) }
{
    place.at_field(key);
    let text = text_in(required(keys, key)?)?;
    TransportAddress::read(text).ok_or(ConfigFault::BadAddress)
}

/// Reads the port at a required key, which must not be 0.
#[tactic(auto, unfolding(crate::specs::Configured::port_in))]
fn port_in(keys: &Table, key: &'static str, place: &mut ConfigPlace) -> Result<u16, ConfigFault>
    ensures { ReadPost (λ port. port) result (port_in key.now (table_view keys.now)) }
{
    place.at_field(key);
    Ok(number_at(required(keys, key)?, 1, 65535)? as u16)
}

/// Returns whether a host may have the external port: with blocks, below 1024 or in its block.
fn may_have(
    host: u32,
    external: u16,
    block: Option<u16>,
    inside: &[Prefix],
    addresses: usize,
) -> bool
    requires some { 1 ≤ addresses }
    requires few { length inside.now ≤ 16 }
    requires blocks { (host : ℕ) → IfSome (block_in block inside.now addresses host) IsPortBlock }
    ensures { result ≡ may_redirect (block_in block inside.now addresses host) external }
{
    let own = blocks::block_of(block, inside, addresses, host);
    blocks::may_redirect(own, external)
}

/// Reads the redirect in an entry, which must be of an inside host.
#[tactic(auto, unfolding(crate::specs::Configured::redirect_in))]
fn redirect_in(
    entry: &Value,
    block: Option<u16>,
    inside: &[Prefix],
    addresses: usize,
    place: &mut ConfigPlace,
) -> Result<Redirect, ConfigFault>
    requires some { 1 ≤ addresses }
    requires few { length inside.now ≤ 16 }
    requires blocks { (host : ℕ) → IfSome (block_in block inside.now addresses host) IsPortBlock }
    ensures { ReadPost (λ redirect. redirect) result
        (redirect_in inside.now (block_in block inside.now addresses) (view entry.now)) }
{
    let keys = table_in(entry)?;
    let tcp = is_tcp_in(keys, place)?;
    let host = transport_address_in(keys, "inside", place)?;
    if !have_address(inside, host.address()) {
        return Err(ConfigFault::NotInside);
    }
    let external = port_in(keys, "external", place)?;
    if !may_have(host.address(), external, block, inside, addresses) {
        return Err(ConfigFault::RedirectInBlock);
    }
    Ok(Redirect {
        tcp,
        address: host.address(),
        port: host.port(),
        external,
    })
}

/// Returns whether both have the same inside endpoint, whatever the protocol.
fn share_inside(a: &Redirect, b: &Redirect) -> bool
    ensures { result ≡ share_inside a.now b.now }
{
    a.address == b.address && a.port == b.port
}

/// Returns whether both have the same external endpoint, whatever the protocol.
fn share_external(
    a: &Redirect,
    b: &Redirect,
    block: Option<u16>,
    inside: &[Prefix],
    pool: &[u32],
    pairs: &BTreeMap<u32, u32>,
) -> bool
    requires some { 1 ≤ length pool.now }
    requires few { length inside.now ≤ 16 }
    ensures { result ≡ share_external (paired_address block inside.now pool.now pairs.now.entries)
        a.now
        b.now }
{
    let a_address = pairing::pair(block, inside, pool, pairs, a.address);
    let b_address = pairing::pair(block, inside, pool, pairs, b.address);
    a_address == b_address && a.external == b.external
}

/// Returns whether both are of one protocol and share an inside or an external endpoint.
fn is_double(
    a: &Redirect,
    b: &Redirect,
    block: Option<u16>,
    inside: &[Prefix],
    pool: &[u32],
    pairs: &BTreeMap<u32, u32>,
) -> bool
    requires some { 1 ≤ length pool.now }
    requires few { length inside.now ≤ 16 }
    ensures { result ≡ is_double (paired_address block inside.now pool.now pairs.now.entries) a.now
        b.now }
{
    a.tcp == b.tcp && (share_inside(a, b) || share_external(a, b, block, inside, pool, pairs))
}

/// Returns whether the later redirect is a double of one of the earlier ones.
#[tactic(auto, unfolding(crate::specs::Configured::have_double_redirect))]
fn have_double(
    earlier: &[Redirect],
    later: &Redirect,
    block: Option<u16>,
    inside: &[Prefix],
    pool: &[u32],
    pairs: &BTreeMap<u32, u32>,
) -> bool
    requires some { 1 ≤ length pool.now }
    requires few { length inside.now ≤ 16 }
    ensures { result ≡ have_double_redirect
        (paired_address block inside.now pool.now pairs.now.entries) earlier.now
        later.now }
{
    for redirect in earlier {
        if is_double(redirect, later, block, inside, pool, pairs) {
            return true;
        }
    }
    false
}

#[tactic(auto, unfolding(crate::specs::Configured::with_redirect))]
fn add_redirect(
    redirects: &mut Vec<Redirect>,
    entry: &Value,
    block: Option<u16>,
    inside: &[Prefix],
    pool: &[u32],
    pairs: &BTreeMap<u32, u32>,
    place: &mut ConfigPlace,
) -> Result<(), ConfigFault>
    requires some { 1 ≤ length pool.now }
    requires few { length inside.now ≤ 16 }
    requires blocks { (host : ℕ) → IfSome (block_in block inside.now (length pool.now) host)
        IsPortBlock }
    ensures exact { MakePost (λ _. redirects.new.items) result
        (with_redirect inside.now (paired_address block inside.now pool.now pairs.now.entries)
        (block_in block inside.now (length pool.now)) redirects.old.items
        (view entry.now)) }
    ensures first { FirstFaultComesFirst
        (with_redirect inside.now (paired_address block inside.now pool.now pairs.now.entries)
        (block_in block inside.now (length pool.now)) redirects.old.items
        (view entry.now)) result }
{
    let redirect = redirect_in(entry, block, inside, pool.len(), place)?;
    place.at_entry();
    if have_double(redirects, &redirect, block, inside, pool, pairs) {
        return Err(ConfigFault::DuplicateRedirect);
    }
    redirects.push(redirect)?;
    Ok(())
}

#[tactic(auto, unfolding(crate::specs::Configured::redirects_at))]
fn redirects_at(
    alloc: Global,
    value: &Value,
    block: Option<u16>,
    inside: &[Prefix],
    pool: &[u32],
    pairs: &BTreeMap<u32, u32>,
    place: &mut ConfigPlace,
) -> Result<Vec<Redirect>, ConfigFault>
    requires some { 1 ≤ length pool.now }
    requires few { length inside.now ≤ 16 }
    requires blocks { (host : ℕ) → IfSome (block_in block inside.now (length pool.now) host)
        IsPortBlock }
    ensures exact { MakePost (λ redirects. redirects.items) result
        (redirects_at each_in_order inside.now
        (paired_address block inside.now pool.now pairs.now.entries)
        (block_in block inside.now (length pool.now)) (view value.now)) }
    ensures first { FirstFaultComesFirst
        (redirects_at first_in_order inside.now
        (paired_address block inside.now pool.now pairs.now.entries)
        (block_in block inside.now (length pool.now)) (view value.now)) result }
{
    let entries = list_up_to(MOST_REDIRECTS, value)?;
    let mut redirects = Vec::new(alloc);
    for entry in entries {
        place.at_next_entry();
        add_redirect(&mut redirects, entry, block, inside, pool, pairs, place)?;
    }
    Ok(redirects)
}

/// Reads the redirects: at most 256, each of an inside host. No two of one protocol may share an
/// inside or an external endpoint.
#[tactic(auto, unfolding(crate::specs::Configured::redirects_in))]
pub(crate) fn redirects(
    alloc: Global,
    table: &Table,
    block: Option<u16>,
    inside: &[Prefix],
    pool: &[u32],
    pairs: &BTreeMap<u32, u32>,
    place: &mut ConfigPlace,
) -> Result<Vec<Redirect>, ConfigFault>
    requires some { 1 ≤ length pool.now }
    requires few { length inside.now ≤ 16 }
    requires blocks { (host : ℕ) → IfSome (block_in block inside.now (length pool.now) host)
        IsPortBlock }
    ensures exact { MakePost (λ redirects. redirects.items) result
        (redirects_in each_in_order inside.now
        (paired_address block inside.now pool.now pairs.now.entries)
        (block_in block inside.now (length pool.now)) (table_view table.now)) }
    ensures first { FirstFaultComesFirst
        (redirects_in first_in_order inside.now
        (paired_address block inside.now pool.now pairs.now.entries)
        (block_in block inside.now (length pool.now)) (table_view table.now)) result }
{
    place.at_key("redirect");
    match value_at(table, "redirect") {
        Some(value) => redirects_at(alloc, value, block, inside, pool, pairs, place),
        None => Ok(Vec::new(alloc)),
    }
}
