//! Configurations, and their answers about hosts and external numbers.

use crate::CallFault;
use crate::play::line::{Line, print_answer};
use napt_config::Config;

/// `settings TEXT`: reads a configuration, and prints why it is refused, if it is.
pub(crate) fn read<R: Print>(line: &mut Line<'_, R>) -> Result<Option<Config>, CallFault> {
    let text = line.bytes()?;
    let (config, fault) = match Config::read(line.alloc, &text) {
        Ok(config) => (Some(config), None),
        Err(fault) => (None, Some(fault)),
    };
    print_answer(line.rt, &fault)?;
    Ok(config)
}

/// `copy` or `built_in`: returns a copy of the current configuration, or the built-in one.
pub(crate) fn made<R: Print>(
    line: &Line<'_, R>,
    config: Option<&Config>,
) -> Result<Option<Config>, CallFault> {
    let made = match config {
        Some(config) => config.copy(line.alloc),
        None => Config::built_in(line.alloc),
    };
    println!(line.rt; "made").map_err(|_| CallFault::File)?;
    Ok(Some(made.map_err(|_| CallFault::Call)?))
}

/// Makes a call on the current configuration.
pub(crate) fn answer<R: Print>(
    line: &mut Line<'_, R>,
    config: &Config,
    call: &str,
) -> Result<(), CallFault> {
    match call {
        "is_inside" => print_answer(line.rt, &config.is_inside(line.long()?)),
        "pair" => print_answer(line.rt, &config.pair(line.long()?)),
        "pool_index" => print_answer(line.rt, &config.pool_index(line.long()?)),
        "block_of" => print_answer(line.rt, &config.block_of(line.long()?)),
        "host_of" => {
            let end = line.endpoint()?;
            print_answer(line.rt, &config.host_of(end.address, end.number))
        }
        "pool" => print_answer(line.rt, &config.pool()),
        "filter" => print_answer(line.rt, &config.filter()),
        "refresh" => print_answer(line.rt, &config.refresh()),
        "choosing" => print_answer(line.rt, &config.choosing()),
        "timers" => print_answer(line.rt, &config.timers()),
        "ring" => print_answer(line.rt, &config.ring()),
        "quota" => print_answer(line.rt, &config.quota()),
        "block" => print_answer(line.rt, &config.block()),
        "host_count" => print_answer(line.rt, &config.host_count()),
        "redirects" => print_answer(line.rt, &config.redirects()),
        _ => Err(CallFault::Usage),
    }
}
