//! The blocks of numbers of a configuration's inside hosts (RFC 7422), in CSV.

ghost use Rattle.std.specs.Prelude.{◌≤◌, IfSome};

use napt_commands::{Exit, LineBuffer};
use napt_config::{Address, Config};
use napt_program::{StandardStreams, Stop};
use std::alloc::AllocError;
use std::fmt::Write;

/// The first number of an address that belongs to a block.
const FIRST: u32 = 1024;

/// The greatest number of blocks of an address: that of blocks of 64 numbers.
pub const MOST_BLOCKS: u32 = 1008;

/// The names of the fields: the host, its external address, and the block's first and last number.
const HEADER: &str = "host,address,first,last\n";

/// Prints the table of all blocks, in the order of hosts, or that the configuration has no blocks.
pub fn print_blocks<R: Print + Eprint + AllocGlobal>(
    rt: &R,
    streams: StandardStreams,
    config: &Config,
) -> Result<(), Exit> {
    let Some(size) = config.block() else {
        let _ = eprintln!(rt; "explain: the configuration has no `block`");
        return Err(Exit::Printed(Stop::Usage));
    };
    if !streams.output {
        return Err(Exit::NoOutput);
    }
    let mut page = LineBuffer::new(rt.alloc());
    page.text.push_str(HEADER)?;
    for nth in 0..MOST_BLOCKS {
        for address in config.pool() {
            let Some(host) = host_of_block(config, size, *address, nth) else {
                return page.end(rt);
            };
            add_block(&mut page.text, config, host)?;
            page.write_if_full(rt)?;
        }
    }
    page.end(rt)
}

/// Appends the line of a host, if it has a block.
fn add_block(text: &mut String, config: &Config, host: u32) -> Result<(), AllocError> {
    let Some((first, last)) = numbers_of(config, host) else {
        return Ok(());
    };
    let address = Address(config.pair(host));
    writeln!(text, "{},{address},{first},{last}", Address(host))
}

/// Returns the first and the last number of a host's block.
pub fn numbers_of(config: &Config, host: u32) -> Option<(u16, u16)>
    ensures { IfSome result (λ numbers. numbers.0 ≤ numbers.1) }
{
    let block = config.block_of(host)?;
    let last = block.first.saturating_add(block.size.saturating_sub(1));
    Some((block.first, last))
}

/// Returns the host that has the block with this index, from 0, of an address.
pub fn host_of_block(config: &Config, size: u16, address: u32, nth: u32) -> Option<u32> {
    let before = u32::from(size).saturating_mul(nth);
    let number = u16::try_from(FIRST.saturating_add(before)).ok()?;
    config.host_of(address, number)
}

/// Prints that no log is needed to find who had an external endpoint, if each host has a block.
pub fn print_log_not_needed<R: Eprint>(rt: &R, config: &Config) {
    if config.block().is_some() {
        let _ = eprintln!(rt;
            "explain: each host has a block of its own, so no log is needed to find who had an endpoint (explain who, explain blocks)"
        );
    }
}
