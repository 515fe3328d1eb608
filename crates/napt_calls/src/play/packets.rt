//! Reads and changes packets, and updates checksums in both ways.

use crate::CallFault;
use crate::play::line::{Line, print_answer};
use napt_wire::{Endpoint, Kind, Packet, Way, fix_check, fix_check_udp};

/// `read SIDE BYTES`: prints the packet, which becomes the current one, with both ends, or why the
/// bytes are refused, with the bytes that are returned.
pub(crate) fn read<R: Print>(line: &mut Line<'_, R>) -> Result<Option<Packet>, CallFault> {
    let side = line.side()?;
    match Packet::read(side, line.bytes()?) {
        Ok(packet) => {
            let (kind, source, destination) = (
                packet.kind(),
                packet.source(),
                packet.destination(),
            );
            println!(line.rt; "{kind:?} {source:?} {destination:?}").map_err(|_| CallFault::File)?;
            Ok(Some(packet))
        }
        Err((cause, bytes)) => {
            println!(line.rt; "{cause:?} {bytes:?}").map_err(|_| CallFault::File)?;
            Ok(None)
        }
    }
}

/// Makes a call on the current packet: `local_end WAY` and `remote_end WAY` print that end;
/// `set_source END`, `set_destination END`, `revert_inner WAY END` and `bytes` print the bytes.
pub(crate) fn answer<R: Print>(
    line: &mut Line<'_, R>,
    packet: &mut Packet,
    call: &str,
) -> Result<(), CallFault> {
    match call {
        "local_end" => return print_answer(line.rt, &packet.local_end(line.way()?)),
        "remote_end" => return print_answer(line.rt, &packet.remote_end(line.way()?)),
        "set_source" => set_source(packet, line.endpoint()?)?,
        "set_destination" => set_destination(packet, line.endpoint()?)?,
        "revert_inner" => revert_inner(packet, line.way()?, line.endpoint()?)?,
        _ => {}
    }
    print_answer(line.rt, &packet.bytes())
}

fn set_source(packet: &mut Packet, end: Endpoint) -> Result<(), CallFault> {
    match packet.kind() {
        Kind::Udp if end.number != 0 => packet.set_source(end),
        Kind::Tcp(_) if end.number != 0 => packet.set_source(end),
        Kind::Echo => packet.set_source(end),
        _ => return Err(CallFault::Unsent),
    }
    Ok(())
}

fn set_destination(packet: &mut Packet, end: Endpoint) -> Result<(), CallFault> {
    match packet.kind() {
        Kind::Udp if end.number != 0 => packet.set_destination(end),
        Kind::Tcp(_) if end.number != 0 => packet.set_destination(end),
        Kind::Echo => packet.set_destination(end),
        _ => return Err(CallFault::Unsent),
    }
    Ok(())
}

fn revert_inner(packet: &mut Packet, way: Way, end: Endpoint) -> Result<(), CallFault> {
    match packet.kind() {
        Kind::ErrorOf(_) if end.number != 0 => packet.revert_inner(way, end),
        _ => return Err(CallFault::Unsent),
    }
    Ok(())
}

/// `fix_check CHECK OLD NEW` or `fix_check_udp CHECK OLD NEW`: prints the updated checksum.
pub(crate) fn print_check<R: Print>(line: &mut Line<'_, R>, call: &str) -> Result<(), CallFault> {
    let (check, old, new) = (line.short()?, line.short()?, line.short()?);
    let fixed = if call == "fix_check" {
        fix_check(check, old, new)
    } else {
        fix_check_udp(check, old, new)
    };
    print_answer(line.rt, &fixed)
}
