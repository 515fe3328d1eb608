//! Captures on devices that fail. The meaning of their bytes is in `tests/calls`.

ghost use Rattle.std.specs.Prelude.{◌<◌, ◌*◌, ◌^◌, length, All, IfOk};
ghost use Rattle.napt_capture.specs.Text.{IsWritable};

use crate::captures::{at_most, failing};
use crate::packets::UDP_QUERY;
use crate::samples::captures::{ONE_PACKET, WRITTEN};
use napt_capture::{
    CaptureFault, FaultPlan, Faulty, InjectedFault, Record, Sink, Source, Watched, WriteFault,
    read_capture, write_capture, write_text,
};
use std::alloc::Global;
use std::io;
use std::io::{Read, Write};
use std::process::Abort;
use std::test::*;

/// The number of records in a capture, and whether its last is cut.
pub(crate) type Shape = (usize, bool);

/// Returns the shape of a capture that is read as a whole from a device.
pub(crate) fn shape_of(alloc: Global, bytes: &[u8], plan: FaultPlan) -> Result<Shape, CaptureFault>
    requires { 0 < plan.most }
{
    let capture = read_capture(alloc, &mut Faulty::new(Watched::new(bytes), plan))?;
    for record in &capture.records {
        if (record.time, record.original) != (1_500_000_000, 30)
            || record.bytes.as_slice() != UDP_QUERY.as_slice()
        {
            return Err(CaptureFault::BadMagic);
        }
    }
    Ok((capture.records.len(), capture.cut))
}

/// Returns the shape of the capture of one packet, if it ends after this number of its bytes.
fn shape_of_front(length: u16) -> Result<Shape, CaptureFault> {
    match length {
        0..=23 => Err(CaptureFault::NoHeader),
        24 => Ok((0, false)),
        25..=69 => Ok((0, true)),
        _ => Ok((1, false)),
    }
}

/// The number of bytes of a read, and the number of reads, of which the last finds the end.
#[test]
fn each_read_fails_in_turn(rt: HostRuntime) {
    let all_reads = [4, 4, 5, 6, 13, 36, 71];
    for (most, reads) in [100, 70, 29, 16, 7, 2, 1].iter().zip(&all_reads) {
        for call in 0..=*reads {
            let plan = at_most(*most, call, InjectedFault::Fails);
            let wanted = if call == 0 {
                Ok((1, false))
            } else {
                Err(CaptureFault::Read)
            };
            let found = shape_of(rt.alloc(), &ONE_PACKET, plan);
            assert_eq!(rt; found, wanted, "{most} bytes, read {call}");
        }
    }
}

/// A read that returns 0 is the end, as is the end of the bytes.
#[test]
fn each_read_finds_the_end(rt: HostRuntime) {
    for given in 0..=70u16 {
        let (front, wanted) = (&ONE_PACKET[..usize::from(given)], shape_of_front(given));
        let whole = failing(0);
        let cut = shape_of(rt.alloc(), front, whole);
        assert_eq!(rt; cut, wanted, "{given} bytes");
        let plan = at_most(1, u64::from(given) + 1, InjectedFault::TakesNone);
        let ended = shape_of(rt.alloc(), &ONE_PACKET, plan);
        assert_eq!(rt; ended, wanted, "none after {given} bytes");
    }
}

/// Returns the packet to write. Its length on the link, which is not written, differs.
fn packet(alloc: Global) -> Result<Record, Fail>
    ensures { IfOk result IsWritable }
{
    let bytes = Vec::from_slice(alloc, &WRITTEN[40..])?;
    Ok(Record {
        time: 1_500_000_000,
        bytes,
        original: 1500,
    })
}

/// The result of writing to a disk, and the contents of the disk.
type DiskOutcome = (Result<(), WriteFault>, Vec<u8>);

/// Writes to a disk that fails as planned.
macro_rules! written {
    ($rt:ident, $plan:expr, $write:ident($written:expr)) => {{
        let mut disk = Faulty::new(Watched::new(Vec::new($rt.alloc())), $plan);
        let result = $write(&mut disk, $written);
        (result, disk.into_inner().into_inner())
    }};
}

/// Checks the contents of a disk after writing, and the result of writing.
fn assert_written(
    rt: &impl Abort,
    written: DiskOutcome,
    wanted: Result<(), WriteFault>,
    front: usize,
) {
    let (result, held) = written;
    assert_eq!(rt; result, wanted);
    assert_eq!(rt; Some(held.as_slice()), WRITTEN.get(..front));
}

#[test]
fn one_packet_or_none_is_written(rt: HostRuntime) -> Result<(), Fail> {
    let records = [packet(rt.alloc())?];
    let plan = failing(0);
    assert_written(&rt, written!(rt, plan, write_capture(&records)), Ok(()), 70);
    assert_written(&rt, written!(rt, plan, write_capture(&[])), Ok(()), 24);
    Ok(())
}

/// With a byte at a time, seventy writes are followed by one flush, which is the last call.
#[test]
fn each_write_fails_in_turn(rt: HostRuntime) -> Result<(), Fail> {
    let records = [packet(rt.alloc())?];
    for injected in [InjectedFault::Fails, InjectedFault::TakesNone] {
        for taken in 0..=71u8 {
            let front = usize::from(taken).min(70);
            let wanted = if taken == 71 || taken == 70 && injected == InjectedFault::TakesNone {
                Ok(())
            } else {
                let written = u64::from(taken);
                Err(WriteFault { written })
            };
            let plan = at_most(1, u64::from(taken) + 1, injected);
            let capture = written!(rt, plan, write_capture(&records));
            assert_written(&rt, capture, wanted, front);
            let text = written!(rt, plan, write_text(&WRITTEN));
            assert_written(&rt, text, wanted, front);
        }
    }
    Ok(())
}

/// Counts its calls. Each succeeds, and moves a byte if there is room, or each fails.
#[derive(Drop)]
struct CountingDevice {
    fault: Option<io::ErrorKind>,
    /// The numbers of reads, writes and flushes.
    calls: [u8; 3],
}

impl CountingDevice {
    fn call(&mut self, kind: usize) -> io::Result<()> {
        if let Some(calls) = self.calls.get_mut(kind) {
            *calls = calls.saturating_add(1);
        }
        match self.fault {
            Some(kind) => Err(io::Error::from(kind)),
            None => Ok(()),
        }
    }
}

impl Read for CountingDevice {
    fn read(&mut self, buffer: &mut [u8]) -> io::Result<usize> {
        self.call(0)?;
        Ok(buffer.len().min(1))
    }
}

impl Write for CountingDevice {
    fn write(&mut self, bytes: &[u8]) -> io::Result<usize> {
        self.call(1)?;
        Ok(bytes.len().min(1))
    }

    fn flush(&mut self) -> io::Result<()> {
        self.call(2)
    }
}

/// Each call reaches the device once, and returns the device's answer.
#[test]
fn calls_are_handed_on_once(rt: HostRuntime) {
    let (broken, interrupted) = (io::ErrorKind::BrokenPipe, io::ErrorKind::Interrupted);
    for fault in [None, Some(broken), Some(interrupted)] {
        let calls = [0; 3];
        let mut read = Watched::new(CountingDevice { fault, calls });
        assert_eq!(rt; read.read(&mut [0; 2]).is_ok(), fault.is_none());
        assert_eq!(rt; read.into_inner().calls, [1, 0, 0]);
        let mut written = Watched::new(CountingDevice { fault, calls });
        assert_eq!(rt; written.write(&[7; 2]).is_ok(), fault.is_none());
        assert_eq!(rt; written.into_inner().calls, [0, 1, 0]);
        let mut flushed = Watched::new(CountingDevice { fault, calls });
        assert_eq!(rt; flushed.flush().is_ok(), fault.is_none());
        assert_eq!(rt; flushed.into_inner().calls, [0, 0, 1]);
    }
}
