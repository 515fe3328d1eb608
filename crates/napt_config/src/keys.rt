//! Checks that a configuration has no unknown keys.
ghost use Rattle.std.specs.{Prelude.{◌≡◌, bytes_eq, codes, map}, List.list_any};
ghost use Rattle.toml.specs.View.{view, table_view, items_view};
ghost use Rattle.napt_config.specs.Configured.{only_keys, only_keys_in, only_keys_in_each, only_keys_in_list, top_keys, timer_keys, pair_keys, redirect_keys, knows_at, knows_all_keys};

use crate::ConfigPlace;
use crate::values::value_at;
use std::alloc::Global;
use toml::{Table, Value};

fn is_one_of(key: &str, names: &[&str]) -> bool
    ensures { result ≡ list_any (λ name. bytes_eq name.now key.now) names.now }
{
    names.iter().any(|name| *name == key)
}

/// Returns whether each key of the table is one of the names.
fn only_keys(alloc: Global, table: &Table, names: &[&str], place: &mut ConfigPlace) -> bool
    ensures { result ≡ only_keys (map (λ name. name.now) names.now) (table_view table.now) }
{
    for key in table.keys() {
        if !is_one_of(key.as_str(), names) {
            place.at_unknown(alloc, key.as_str());
            return false;
        }
    }
    true
}

fn only_keys_in(alloc: Global, value: &Value, names: &[&str], place: &mut ConfigPlace) -> bool
    ensures { result ≡ only_keys_in (map (λ name. name.now) names.now) (view value.now) }
{
    match value.as_table() {
        Some(table) => only_keys(alloc, table, names, place),
        None => true,
    }
}

fn only_keys_in_each(
    alloc: Global,
    entries: &[Value],
    names: &[&str],
    place: &mut ConfigPlace,
) -> bool
    ensures { result ≡ only_keys_in_each (map (λ name. name.now) names.now)
        (items_view entries.now) }
{
    for entry in entries {
        place.at_next_entry();
        if !only_keys_in(alloc, entry, names, place) {
            return false;
        }
    }
    true
}

/// Returns whether each table in an array has only keys with these names. Other values have no
/// keys.
fn only_keys_in_list(alloc: Global, value: &Value, names: &[&str], place: &mut ConfigPlace) -> bool
    ensures { result ≡ only_keys_in_list (map (λ name. name.now) names.now) (view value.now) }
{
    match value.as_array() {
        Some(entries) => only_keys_in_each(alloc, entries.as_slice(), names, place),
        None => true,
    }
}

fn knows_timer_keys(alloc: Global, table: &Table, place: &mut ConfigPlace) -> bool
    ensures { result ≡ knows_at (codes "timers") (only_keys_in timer_keys) (table_view table.now) }
{
    place.at_key("timers");
    match value_at(table, "timers") {
        Some(value) => only_keys_in(
            alloc,
            value,
            &["udp", "tcp-established", "tcp-transitory", "icmp"],
            place,
        ),
        None => true,
    }
}

fn knows_pair_keys(alloc: Global, table: &Table, place: &mut ConfigPlace) -> bool
    ensures { result
        ≡ knows_at (codes "pair") (only_keys_in_list pair_keys) (table_view table.now) }
{
    place.at_key("pair");
    match value_at(table, "pair") {
        Some(value) => only_keys_in_list(alloc, value, &["host", "external"], place),
        None => true,
    }
}

fn knows_redirect_keys(alloc: Global, table: &Table, place: &mut ConfigPlace) -> bool
    ensures { result ≡ knows_at (codes "redirect") (only_keys_in_list redirect_keys)
        (table_view table.now) }
{
    place.at_key("redirect");
    match value_at(table, "redirect") {
        Some(value) => only_keys_in_list(alloc, value, &["protocol", "inside", "external"], place),
        None => true,
    }
}

fn knows_top_keys(alloc: Global, table: &Table, place: &mut ConfigPlace) -> bool
    ensures { result ≡ only_keys top_keys (table_view table.now) }
{
    only_keys(
        alloc,
        table,
        &[
            "pool", "inside", "filter", "refresh", "parity", "numbers", "seed", "timers", "hold",
            "ring", "quota", "block", "pair", "redirect",
        ],
        place,
    )
}

/// Returns whether all keys are known, also in `timers` and in each entry of `pair` and `redirect`.
#[tactic(auto, unfolding(crate::specs::Configured::knows_all_keys))]
pub(crate) fn knows_all_keys(alloc: Global, table: &Table, place: &mut ConfigPlace) -> bool
    ensures { result ≡ knows_all_keys (table_view table.now) }
{
    knows_top_keys(alloc, table, place)
        && knows_timer_keys(alloc, table, place)
        && knows_pair_keys(alloc, table, place)
        && knows_redirect_keys(alloc, table, place)
}
