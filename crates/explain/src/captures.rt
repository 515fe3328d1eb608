//! Reads the captures of a run, one packet at a time, and prints why one is refused.

ghost use Rattle.std.specs.Prelude.{◌-◌, ◌^◌, ◌<◌};

use crate::flaws::{CaptureFlaws, StepBack};
use crate::options::ExplainOptions;
use crate::refusals;
use napt_capture::{CaptureFault, RecordReader, Source};
use napt_commands::{Exit, PacketConsumer};
use napt_config::Config;
use napt_display::reasons::SplitAdvice;
use napt_program::Stop;
use napt_records::{Fault, RecordStream, SideFault, StreamMerger};
use napt_sequential::{Input, InputSource};
use napt_wire::Side;
use std::alloc::Global;
use std::io;
use std::io::{BufReader, ErrorKind, Read};

/// The size of a read in bytes.
const BUFFERED: usize = 65_536;

/// The number of bytes at the beginning of a capture from which its form is recognized: its header.
const HEADER: u64 = 24;

/// The beginning of a capture, and the reader of the rest.
#[derive(Drop)]
pub struct StartedCaptures<D> {
    pub head: Vec<u8>,
    pub reader: BufReader<D>,
}

/// A capture whose header has been read, with its beginning.
#[derive(Drop)]
pub struct OpenCaptures<'a, S: Source> {
    head: &'a [u8],
    stream: RecordStream<'a, S>,
}

/// Prints why captures are refused.
#[derive(Clone, Copy)]
pub struct RefusedRun<'a> {
    pub options: &'a ExplainOptions<'a>,
    /// The configuration.
    pub config: &'a Config,
}

impl RefusedRun<'_> {
    /// Reads the beginning of a side's capture, or prints why it cannot be read.
    pub fn begin<R: Eprint + AllocGlobal, D: Read + Drop>(
        self,
        rt: &R,
        side: Side,
        device: D,
    ) -> Result<StartedCaptures<D>, Exit> {
        let mut head = Vec::new(rt.alloc());
        let mut reader = match BufReader::with_capacity(rt.alloc(), BUFFERED, device) {
            Ok(reader) => reader,
            Err(_) => return Err(self.refuse(rt, side, &head, CaptureFault::Memory, None)),
        };
        let error = match reader.by_ref().take(HEADER).read_to_end(&mut head) {
            Ok(_) => return Ok(StartedCaptures { head, reader }),
            Err(error) => error,
        };
        let fault = match error.kind() {
            ErrorKind::OutOfMemory => CaptureFault::Memory,
            _ => CaptureFault::Read,
        };
        Err(self.refuse(rt, side, &head, fault, Some(error)))
    }

    /// Reads the header of a side's capture, which begins with these bytes, or prints why it fails.
    pub fn open<'a, R: Eprint + AllocGlobal, S: Source>(
        self,
        rt: &R,
        side: Side,
        head: &'a [u8],
        source: &'a mut S,
    ) -> Result<OpenCaptures<'a, S>, Exit> {
        match RecordReader::open(rt.alloc(), source) {
            Ok(records) => Ok(OpenCaptures {
                head,
                stream: RecordStream::new(source, records),
            }),
            Err(fault) => Err(self.refuse(rt, side, head, fault, None)),
        }
    }

    /// Prints why the capture of a side, which begins with these bytes, is refused, with the
    /// system's reason if there is one, and returns the stop.
    fn refuse<R: Eprint + AllocGlobal>(
        self,
        rt: &R,
        side: Side,
        head: &[u8],
        fault: CaptureFault,
        failed: Option<io::Error>,
    ) -> Exit {
        if let Err(stop) = self.print_reasons(rt, side, head, fault) {
            return stop;
        }
        if let Some(error) = failed {
            let _ = eprintln!(rt; "  {:<9} {error}", "system");
        }
        Exit::Printed(Stop::Run(Fault::Capture(side, fault)))
    }

    fn print_reasons<R: Eprint + AllocGlobal>(
        self,
        rt: &R,
        side: Side,
        head: &[u8],
        fault: CaptureFault,
    ) -> Result<(), Exit> {
        let options = self.options;
        let (name, path) = match side {
            Side::Inside => ("inside", options.files.inside.as_ref()),
            Side::Outside => (options.outside.name(), options.files.outside.as_ref()),
        };
        let splitting = SplitAdvice {
            command: options.split,
            capture: path.map(|path| path.as_str()).filter(|path| *path != "-"),
            inside: self.config.inside(),
        };
        refusals::print_capture(rt, name, head, fault, splitting)
    }
}

/// The packets of both captures, in the order in which `napt` processes them.
#[derive(Drop)]
pub struct CaptureInputs<'r, 'i, 'o, A: Source, B: Source> {
    refusing: RefusedRun<'r>,
    inside_head: &'i [u8],
    outside_head: &'o [u8],
    packets: StreamMerger<'i, 'o, A, B>,
    back: StepBack,
}

impl<'r, 'i, 'o, A: Source, B: Source> CaptureInputs<'r, 'i, 'o, A, B> {
    /// Returns the packets of captures after their headers, for a run that starts at a time in ns.
    pub fn new(
        alloc: Global,
        refusing: RefusedRun<'r>,
        clock: u64,
        inside: OpenCaptures<'i, A>,
        outside: OpenCaptures<'o, B>,
    ) -> CaptureInputs<'r, 'i, 'o, A, B> {
        let (inside_head, outside_head) = (inside.head, outside.head);
        CaptureInputs {
            refusing,
            inside_head,
            outside_head,
            packets: StreamMerger::new(alloc, inside.stream, outside.stream),
            back: StepBack::from_state(clock),
        }
    }

    /// Passes the packets to a consumer, one after another, until the end. If a capture is refused,
    /// prints why, after the consumer's output for the packets before.
    pub fn pass_to<R: Eprint + AllocGlobal, C: PacketConsumer<R>>(
        &mut self,
        rt: &R,
        consumer: &mut C,
    ) -> Result<(), Exit> {
        let mut spare = Vec::new(rt.alloc());
        for number in 1..u64::MAX {
            if self.packets.asks_device() {
                consumer.settle(rt)?;
            }
            let input = match self.packets.next(spare) {
                Ok(Some(input)) => input,
                Ok(None) => return Ok(()),
                Err(fault) => {
                    consumer.settle(rt)?;
                    return Err(self.refuse(rt, fault));
                }
            };
            self.back.add_packet(number, &input);
            consumer.take(rt, number, &input)?;
            spare = input.bytes;
        }
        Ok(())
    }

    /// Returns all packets. If a capture is refused, prints why.
    pub fn read_all<R: Eprint + AllocGlobal>(&mut self, rt: &R) -> Result<Vec<Input>, Exit> {
        let mut inputs = Vec::new(rt.alloc());
        for number in 1..u64::MAX {
            match self.packets.next(Vec::new(rt.alloc())) {
                Ok(Some(input)) => {
                    self.back.add_packet(number, &input);
                    inputs.push(input)?;
                }
                Ok(None) => return Ok(inputs),
                Err(fault) => return Err(self.refuse(rt, fault)),
            }
        }
        Ok(inputs)
    }

    /// Returns the flaws of the captures, once their ends have been reached.
    pub fn flaws(&self) -> CaptureFlaws {
        CaptureFlaws {
            cuts: self.packets.cuts(),
            outside: self.refusing.options.outside,
            step_back: self.back,
        }
    }

    /// Closes the captures.
    pub fn close(self) {
        let CaptureInputs { packets, .. } = self;
        let _ = packets.into_streams();
    }

    fn refuse<R: Eprint + AllocGlobal>(&self, rt: &R, fault: SideFault) -> Exit {
        let head = match fault.side {
            Side::Inside => self.inside_head,
            Side::Outside => self.outside_head,
        };
        self.refusing
            .refuse(rt, fault.side, head, fault.fault, None)
    }
}
