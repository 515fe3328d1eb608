//! The owners of an external endpoint by the configuration, if it has blocks (RFC 7422).

use crate::answers::{AnswerBasis, Basis, add_line_number};
use crate::blocks::{MOST_BLOCKS, host_of_block, numbers_of};
use crate::requests::HolderRequest;
use napt_account::Party;
use napt_commands::LineBuffer;
use napt_config::{Address, Config, Redirect};
use napt_log_text::Request;
use napt_records::protocol_name;
use napt_wire::{Endpoint, Protocol};
use std::alloc::AllocError;
use std::fmt::Write;

/// Appends a line for each host whose block contains a requested endpoint. Without a run, also
/// appends the redirects, or that nobody ever has the endpoint. Returns whether somebody has it.
pub fn add_owners(
    asked: &HolderRequest,
    known: AnswerBasis<'_>,
    page: &mut LineBuffer,
) -> Result<bool, AllocError> {
    let Some((config, size)) = known.config.and_then(|it| Some((it, it.block()?))) else {
        return Ok(false);
    };
    let text = &mut page.text;
    let is_alone = known.basis == Basis::Blocks;
    let has_redirect = is_alone && add_redirects(asked, config, text)?;
    let has_host = match asked.endpoint() {
        Some(Endpoint { address, number }) => match config.host_of(address, number) {
            Some(host) => add_host(asked, config, host, text)?,
            None => false,
        },
        None => add_hosts_of(asked, config, size, text)?,
    };
    if is_alone && !has_redirect && !has_host {
        add_nobody(asked, config, text)?;
    }
    Ok(has_redirect || has_host)
}

/// Appends the lines of all hosts with a block of an address.
fn add_hosts_of(
    asked: &HolderRequest,
    config: &Config,
    size: u16,
    text: &mut String,
) -> Result<bool, AllocError> {
    let address = asked.request.party.address;
    for nth in 0..MOST_BLOCKS {
        let Some(host) = host_of_block(config, size, address, nth) else {
            return Ok(nth > 0);
        };
        add_host(asked, config, host, text)?;
    }
    Ok(true)
}

/// Appends the line of a host, if it has a block.
fn add_host(
    asked: &HolderRequest,
    config: &Config,
    host: u32,
    text: &mut String,
) -> Result<bool, AllocError> {
    let Some((first, last)) = numbers_of(config, host) else {
        return Ok(false);
    };
    add_line_number(asked, text)?;
    write!(text, "{} at ", Address(host))?;
    add_party(asked.request.party, text)?;
    writeln!(text, " always: its block is {first} to {last}")?;
    Ok(true)
}

/// Appends the lines of the redirects that a request names.
fn add_redirects(
    asked: &HolderRequest,
    config: &Config,
    text: &mut String,
) -> Result<bool, AllocError> {
    let mut has_one = false;
    for redirect in config.redirects() {
        if is_asked(&asked.request, config, redirect) {
            add_line_number(asked, text)?;
            add_redirect(config, redirect, text)?;
            has_one = true;
        }
    }
    Ok(has_one)
}

/// Returns whether a request names the external endpoint of a redirect.
fn is_asked(request: &Request, config: &Config, redirect: &Redirect) -> bool {
    let party = request.party;
    config.pair(redirect.address) == party.address
        && party.number.is_none_or(|it| it == redirect.external)
        && request
            .protocol
            .is_none_or(|it| it == protocol_of(redirect))
}

fn protocol_of(redirect: &Redirect) -> Protocol {
    match redirect.tcp {
        true => Protocol::Tcp,
        false => Protocol::Udp,
    }
}

/// Appends a redirect in the form of a binding's line.
fn add_redirect(config: &Config, redirect: &Redirect, text: &mut String) -> Result<(), AllocError> {
    let protocol = protocol_name(protocol_of(redirect));
    let (inside, external) = (
        Address(redirect.address),
        Address(config.pair(redirect.address)),
    );
    let (port, number) = (redirect.port, redirect.external);
    writeln!(
        text,
        "{protocol} {inside}:{port} at {external}:{number} always, a redirect"
    )
}

/// Appends the line that says that nobody ever has an endpoint, and why.
fn add_nobody(asked: &HolderRequest, config: &Config, text: &mut String) -> Result<(), AllocError> {
    let party = asked.request.party;
    add_line_number(asked, text)?;
    text.push_str("nobody has ")?;
    add_party(party, text)?;
    text.push_str(match config.pool_index(party.address) {
        Some(_) => ": it is in no host's block and is not a redirect\n",
        None => ": it is no address of the pool\n",
    })
}

/// Appends an address, or an endpoint.
pub fn add_party(party: Party, text: &mut String) -> Result<(), AllocError> {
    match party.number {
        Some(number) => write!(text, "{}:{number}", Address(party.address)),
        None => write!(text, "{}", Address(party.address)),
    }
}
