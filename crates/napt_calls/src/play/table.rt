//! The table of one external address.

ghost use Rattle.std.specs.Prelude.{◌≡◌, ◌≤◌, true, IfSome};
ghost use Rattle.napt_config.specs.Rules.{IsPortBlock};
ghost use Rattle.napt_rules.specs.Prelude.{IsNumber};

use crate::CallFault;
use crate::play::line::{Line, print_answer};
use napt_config::{Config, PortBlock};
use napt_table::{OutboundPacket, Table};
use napt_wire::Protocol;

/// `table ADDRESS CONFIGURATION`: makes a table of that address, in a box, since a function that
/// owns a table takes minutes to prove.
pub(crate) fn new_table<R: Print>(line: &mut Line<'_, R>) -> Result<Box<Table>, CallFault> {
    let address = line.long()?;
    let config = Config::read(line.alloc, &line.bytes()?).map_err(|_| CallFault::Config)?;
    let table = Table::new(line.alloc, address, &config).map_err(|_| CallFault::Call)?;
    println!(line.rt; "begun").map_err(|_| CallFault::File)?;
    Box::new(line.alloc, table).map_err(|_| CallFault::Call)
}

/// Makes a call on the current table; `count` prints the number of bindings that `bindings` lists.
pub(crate) fn answer<R: Print>(
    line: &mut Line<'_, R>,
    table: &mut Table,
    call: &str,
) -> Result<(), CallFault> {
    let now = line.number()?;
    if now < table.at() {
        return Err(CallFault::Unsent);
    }
    let (rt, alloc) = (line.rt, line.alloc);
    match call {
        "outbound" => return outbound(line, table, now),
        "inbound" => return inbound(line, table, now),
        "by_external" => {
            let (protocol, number) = (line.protocol()?, line.short()?);
            return print_answer(rt, &table.by_external(now, protocol, number));
        }
        "by_inside" => {
            let (protocol, inside) = (line.protocol()?, line.endpoint()?);
            return print_answer(rt, &table.by_inside(now, protocol, inside));
        }
        _ => {}
    }
    let rows = table.bindings(alloc, now).map_err(|_| CallFault::Call)?;
    match call {
        "bindings" => print_answer(rt, &rows),
        "count" => print_answer(rt, &rows.len()),
        _ => Err(CallFault::Usage),
    }
}

/// Returns whether there is no block, or one of even size with an even first number, at least
/// 1024.
fn keeps_block(block: Option<PortBlock>) -> bool
    ensures { result ≡ true → IfSome block IsPortBlock }
{
    let Some(PortBlock { first, size }) = block else {
        return true;
    };
    let end = u32::from(first) + u32::from(size);
    first % 2 == 0 && first >= 1024 && size % 2 == 0 && size >= 64 && end <= 65_536
}

/// Returns whether a number can be that of an endpoint: port 0 cannot (RFC 768).
pub(crate) fn is_number(protocol: Protocol, number: u16) -> bool
    ensures { result ≡ true → IsNumber protocol number }
{
    match protocol {
        Protocol::Icmp => true,
        Protocol::Tcp | Protocol::Udp => number != 0,
    }
}

/// `outbound NOW PROTOCOL INSIDE REMOTE FLAGS [FIRST SIZE]`: prints the answer, with a block or
/// not.
fn outbound<R: Print>(line: &mut Line<'_, R>, table: &mut Table, now: u64) -> Result<(), CallFault>
    requires { table.old.at ≤ now }
{
    let sent = OutboundPacket {
        now,
        protocol: line.protocol()?,
        inside: line.endpoint()?,
        remote: line.endpoint()?,
        flags: line.flags()?,
        block: line.block()?,
    };
    if !keeps_block(sent.block) || !is_number(sent.protocol, sent.inside.number) {
        return Err(CallFault::Unsent);
    }
    let answer = table.outbound_in_block(line.alloc, sent);
    print_answer(line.rt, &answer.map_err(|_| CallFault::Call)?)
}

/// `inbound NOW PROTOCOL NUMBER REMOTE FLAGS`: prints the answer.
fn inbound<R: Print>(line: &mut Line<'_, R>, table: &mut Table, now: u64) -> Result<(), CallFault>
    requires { table.old.at ≤ now }
{
    let (protocol, external) = (line.protocol()?, line.short()?);
    let (remote, flags) = (line.endpoint()?, line.flags()?);
    print_answer(
        line.rt,
        &table.inbound(now, protocol, external, remote, flags),
    )
}
