//! Records that are read one after another.

ghost use Rattle.std.specs.Prelude.{◌<◌};

use super::captures::{Shape, shape_of};
use crate::captures::{at_most, failing};
use crate::samples::captures::ONE_PACKET;
use napt_capture::{
    CaptureFault, FaultPlan, Faulty, InjectedFault, NextRead, RecordReader, Watched,
};
use std::alloc::Global;
use std::test::*;

/// Returns a capture of two packets, the second with a fraction of a whole second.
fn two_packets(alloc: Global) -> Result<Vec<u8>, Fail> {
    let mut bytes = ONE_PACKET.to_vec(alloc)?;
    bytes.extend_from_slice(&ONE_PACKET[24..28])?;
    bytes.extend_from_slice(&[0x40, 0x42, 0x0f, 0])?;
    bytes.extend_from_slice(&ONE_PACKET[32..])?;
    Ok(bytes)
}

/// Returns the number of records in a capture, read one after another, and whether its last is cut.
fn shape_one_by_one(alloc: Global, bytes: &[u8], plan: FaultPlan) -> Result<Shape, CaptureFault>
    requires { 0 < plan.most }
{
    let mut source = Faulty::new(Watched::new(bytes), plan);
    let mut records = RecordReader::open(alloc, &mut source)?;
    for count in 0..9 {
        match records.next(&mut source, Vec::new(alloc))? {
            NextRead::Whole(record) if record.bytes.as_slice() == &ONE_PACKET[40..] => {}
            NextRead::Whole(_) => return Err(CaptureFault::BadMagic),
            NextRead::End(cut) => return Ok((count, cut)),
        }
    }
    Err(CaptureFault::TooLarge)
}

/// A capture that is cut at each byte has the same shape, whether it is read in pieces or whole.
#[test]
fn one_by_one_is_the_same_as_whole(rt: HostRuntime) -> Result<(), Fail> {
    let bytes = two_packets(rt.alloc())?;
    for length in 20..=90 {
        let rest = &bytes[..bytes.len().min(length)];
        let most = [1, 7, 4096][length % 3];
        let found = shape_one_by_one(rt.alloc(), rest, at_most(most, 0, InjectedFault::Fails));
        let whole = shape_of(rt.alloc(), rest, failing(0));
        assert_eq!(rt; found, whole, "{length} bytes by {most}");
    }
    Ok(())
}

/// The header is read, and then 16 bytes at a time: the sixth read finds the end.
#[test]
fn a_failed_read_is_told(rt: HostRuntime) {
    for call in 1..=6 {
        let found = shape_one_by_one(
            rt.alloc(),
            &ONE_PACKET,
            at_most(16, call, InjectedFault::Fails),
        );
        assert_eq!(rt; found, Err(CaptureFault::Read), "read {call}");
    }
}
