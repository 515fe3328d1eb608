//! The pairs by which hosts with live bindings retain their external addresses under another pool.

use napt_commands::{Exit, LineBuffer};
use napt_config::{Address, Config};
use napt_program::{StandardStreams, Stop};
use napt_state::{SavedBinding, StateFileContents};
use std::alloc::{AllocError, Global};
use std::collections::BTreeMap;
use std::fmt::Write;

/// The greatest number of pairs of a configuration.
const MOST_PAIRS: usize = 256;

/// Prints a pair for each host with a live binding in a state that a configuration would give
/// another external address, in the order of hosts. Prints if there are more pairs than a
/// configuration can have, or if it can have none.
pub fn print_pairs<R: Print + Eprint + AllocGlobal>(
    rt: &R,
    streams: StandardStreams,
    config: &Config,
    saved: &StateFileContents,
) -> Result<(), Exit> {
    if config.block().is_some() {
        let _ = eprintln!(rt; "explain: a configuration with a `block` has no pairs");
        return Err(Exit::Printed(Stop::Usage));
    }
    if !streams.output {
        return Err(Exit::NoOutput);
    }
    let moved = moved_hosts(rt.alloc(), config, saved)?;
    let mut page = LineBuffer::new(rt.alloc());
    for (host, external) in moved.iter().take(MOST_PAIRS) {
        let (host, external) = (Address(*host), Address(*external));
        writeln!(
            page.text,
            "[[pair]]\nhost = \"{host}\"\nexternal = \"{external}\""
        )?;
        page.write_if_full(rt)?;
    }
    if moved.len() > MOST_PAIRS {
        let many = moved.len();
        let _ = eprintln!(rt;
            "explain: {many} hosts would need a pair, and a configuration has at most {MOST_PAIRS}: the bindings of the other hosts cannot be accepted"
        );
    }
    page.end(rt)
}

/// Returns the hosts with live bindings that a configuration would move, with their addresses.
fn moved_hosts(
    alloc: Global,
    config: &Config,
    saved: &StateFileContents,
) -> Result<BTreeMap<u32, u32>, AllocError> {
    let mut moved = BTreeMap::new(alloc);
    for binding in &saved.bindings {
        if let SavedBinding::Live(binding, _) = binding {
            let row = binding.row;
            let (host, external) = (row.inside.address, row.external.address);
            if !row.fixed && is_moved(config, host, external) {
                moved.insert(host, external)?;
            }
        }
    }
    Ok(moved)
}

/// Returns whether a configuration would give an inside host another external address than this one
/// of its pool, and has no pair for it.
fn is_moved(config: &Config, host: u32, external: u32) -> bool {
    let by_index = config
        .pool()
        .get(host as usize % config.pool().len().max(1));
    config.is_inside(host)
        && config.pool().contains(&external)
        && config.pair(host) != external
        && by_index == Some(&config.pair(host))
}
