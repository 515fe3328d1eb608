//! Merges two captures, in memory and as they are read.

ghost use Rattle.std.specs.Prelude.{◌≡◌, ◌<◌, ◌^◌, ◌-◌, IfOk};

use crate::CallFault;
use crate::play::line::{Line, print_answer};
use napt_capture::{
    EmptySource, FaultPlan, Faulty, InjectedFault, Record, RecordReader, Source, Watched,
    read_capture,
};
use napt_records::{RecordStream, StreamMerger, merge};
use napt_sequential::InputSource;
use std::alloc::Global;

/// The number of inputs that a call requests, so that each end of a text is reached more than once.
const ASKS: u32 = 10;

/// Reads both captures; the next word is the number of bytes in the first.
fn captures<R>(line: &mut Line<'_, R>) -> Result<(Vec<u8>, Vec<u8>), CallFault> {
    let many = line.short()?;
    let mut inside = line.bytes()?;
    let mut outside = Vec::new(line.alloc);
    let bytes = inside.get(usize::from(many)..).ok_or(CallFault::Usage)?;
    outside
        .extend_from_slice(bytes)
        .map_err(|_| CallFault::Call)?;
    inside.truncate(usize::from(many));
    Ok((inside, outside))
}

/// `merge LENGTH INSIDE OUTSIDE`: prints the inputs of two captures.
pub(crate) fn print_merged<R: Print>(line: &mut Line<'_, R>) -> Result<(), CallFault> {
    let (inside, outside) = captures(line)?;
    let inside = records(line.alloc, &inside)?;
    let outside = records(line.alloc, &outside)?;
    let inputs = merge(line.alloc, inside, outside).map_err(|_| CallFault::Call)?;
    print_answer(line.rt, &inputs)
}

fn records(alloc: Global, text: &[u8]) -> Result<Vec<Record>, CallFault> {
    let capture = read_capture(alloc, &mut Watched::new(text)).map_err(|_| CallFault::Capture)?;
    Ok(capture.records)
}

/// Reads the header of a capture.
fn open_stream<'a, R: Source>(
    alloc: Global,
    source: &'a mut R,
) -> Result<RecordStream<'a, R>, CallFault>
    ensures { IfOk result (λ stream. R.failed stream.live.source.now ≡ R.failed source.old) }
{
    let records = RecordReader::open(alloc, source).map_err(|_| CallFault::Capture)?;
    Ok(RecordStream::new(source, records))
}

/// Prints whether a device is read, and then each input, whether the captures are cut, or a fault.
fn print_inputs<P: Print, R: Source, Q: Source>(
    line: &Line<'_, P>,
    streams: &mut StreamMerger<'_, '_, R, Q>,
) -> Result<(), CallFault> {
    let rt = line.rt;
    for _ in 0..ASKS {
        let asks = streams.asks_device();
        match streams.next(Vec::new(line.alloc)) {
            Ok(Some(input)) => print!(rt; "{asks} {input:?}; "),
            Ok(None) => {
                let cuts = streams.cuts();
                print!(rt; "{asks} {cuts:?}; ")
            }
            Err(fault) => print!(rt; "{asks} {fault:?}; "),
        }
        .map_err(|_| CallFault::File)?;
    }
    println!(line.rt; "").map_err(|_| CallFault::File)
}

/// Prints the inputs of two streams in this way, and closes them.
fn print_streams<P: Print, R: Source, Q: Source>(
    line: &Line<'_, P>,
    mut streams: StreamMerger<'_, '_, R, Q>,
) -> Result<(), CallFault> {
    let told = print_inputs(line, &mut streams);
    let (_, _) = streams.into_streams();
    told
}

/// `streams MOST CALL LENGTH INSIDE OUTSIDE`: prints the inputs of captures that are read in steps. The outside one
/// returns at most MOST bytes from a read, and fails at the call number CALL, counted from 1, or never if it is 0.
pub(crate) fn print_read<R: Print>(line: &mut Line<'_, R>) -> Result<(), CallFault> {
    let plan = FaultPlan {
        most: usize::from(line.short()?),
        failing_call: line.number()?,
        fault: InjectedFault::Fails,
    };
    if plan.most == 0 {
        return Err(CallFault::Unsent);
    }
    let (inside, outside) = captures(line)?;
    let mut first = Watched::new(inside.as_slice());
    let mut second = Faulty::new(Watched::new(outside.as_slice()), plan);
    let first = open_stream(line.alloc, &mut first)?;
    let second = open_stream(line.alloc, &mut second)?;
    print_streams(line, StreamMerger::new(line.alloc, first, second))
}

/// `stream INSIDE`: prints the inputs of one capture alone.
pub(crate) fn print_alone<R: Print>(line: &mut Line<'_, R>) -> Result<(), CallFault> {
    let inside = line.bytes()?;
    let mut first = Watched::new(inside.as_slice());
    let mut second = EmptySource::new();
    let first = open_stream(line.alloc, &mut first)?;
    let second = open_stream(line.alloc, &mut second)?;
    print_streams(line, StreamMerger::new(line.alloc, first, second))
}
