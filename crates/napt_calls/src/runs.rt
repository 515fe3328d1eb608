//! Makes a part of a run over the capture on standard input, which the bench measures in addition
//! to the program.
//!
//! `copy` reads the capture and writes its records to standard output, with times in nanoseconds in
//! little-endian order. The others read the capture as the packets of inside hosts, without outside
//! packets, and write no captures: `merged` only reads and merges, `plain` runs on one thread, and
//! `workers` runs with a worker on its own thread for each external address; `slow` does the same,
//! but delays the first worker by two seconds at its first leg. Without a file, the configuration
//! is the built-in one. One line on standard output contains the counts of packets, of their
//! outcomes, and of the legs of each address.

use crate::CallFault;
use napt_capture::{Watched, read_capture, write_capture};
use napt_config::Config;
use napt_pool::{Gate, OpenGate};
use napt_run::{Outcome, Run, merge, run_plain, run_workers};
use std::io::{BufReader, BufWriter};
use std::rt::Files;
use std::sync::{Arc, Wait};
use std::thread::Threads;
use std::time::{Clock, Duration};
use std::{fs, io, thread};

/// The size of reads and writes in bytes.
const BUFFERED: usize = 65_536;

/// The part of a run to make.
#[derive(Clone, Copy)]
enum Measurement {
    Copy,
    Plain,
    Workers,
    Slow,
    Merged,
}

/// Delays worker 0 by two seconds at its first leg.
#[derive(Drop)]
struct SlowStart<R> {
    rt: R,
}

impl<R: Clock> Gate for SlowStart<R> {
    ghost use Rattle.std.specs.Prelude.{true};

    ghost is_open = { true };

    fn enter(&self, worker: u32, turn: u64) -> bool {
        if worker == 0 && turn == 0 {
            thread::sleep(&self.rt, Duration::from_secs(2));
        }
        true
    }
}

/// Runs the part that the words name.
pub(crate) fn measure<
    R: Files + Input + Print + AllocGlobal + Clock + Threads + Wait + Copy + Send + Sync + 'static,
>(rt: &R, words: &[String]) -> Result<(), CallFault> {
    let how = measurement_of(words.get(1))?;
    if let Measurement::Copy = how {
        return copied(rt);
    }
    let config = configuration(rt, words.get(2))?;
    let inputs = merged(rt)?;
    let run = match how {
        Measurement::Plain => run_plain(rt.alloc(), &config, &inputs).map_err(|_| CallFault::Call)?,
        Measurement::Workers => over_workers(rt, &config, &inputs, OpenGate)?,
        Measurement::Slow => over_workers(rt, &config, &inputs, SlowStart { rt: *rt })?,
        Measurement::Copy | Measurement::Merged => {
            return println!(rt; "packets {}", inputs.len()).map_err(|_| CallFault::File);
        }
    };
    print_counts(rt, &run).map_err(|_| CallFault::File)
}

/// Returns the part of a run that a word names.
fn measurement_of(word: Option<&String>) -> Result<Measurement, CallFault> {
    match word.ok_or(CallFault::Usage)?.as_str() {
        "copy" => Ok(Measurement::Copy),
        "plain" => Ok(Measurement::Plain),
        "workers" => Ok(Measurement::Workers),
        "slow" => Ok(Measurement::Slow),
        "merged" => Ok(Measurement::Merged),
        _ => Err(CallFault::Usage),
    }
}

/// Reads the configuration in a file, or returns the built-in one if none is named.
fn configuration<R: Files + AllocGlobal>(
    rt: &R,
    path: Option<&String>,
) -> Result<Config, CallFault> {
    let Some(path) = path else {
        return Config::built_in(rt.alloc()).map_err(|_| CallFault::Config);
    };
    let text = fs::read(rt, path.as_str()).map_err(|_| CallFault::File)?;
    Config::read(rt.alloc(), &text).map_err(|_| CallFault::Config)
}

/// Copies the records of the capture on standard input to standard output.
fn copied<R: Input + Print + AllocGlobal>(rt: &R) -> Result<(), CallFault> {
    let alloc = rt.alloc();
    let reader = BufReader::with_capacity(alloc, BUFFERED, rt.reader()).map_err(
        |_| CallFault::Call,
    )?;
    let writer = BufWriter::with_capacity(alloc, BUFFERED, io::writer(rt)).map_err(
        |_| CallFault::Call,
    )?;
    let capture = read_capture(alloc, &mut Watched::new(reader)).map_err(|_| CallFault::Capture)?;
    write_capture(&mut Watched::new(writer), &capture.records).map_err(|_| CallFault::File)
}

/// Reads and merges the inputs on standard input.
fn merged<R: Input + AllocGlobal>(rt: &R) -> Result<Vec<napt_run::Input>, CallFault> {
    let alloc = rt.alloc();
    let reader = BufReader::with_capacity(alloc, BUFFERED, rt.reader()).map_err(
        |_| CallFault::Call,
    )?;
    let capture = read_capture(alloc, &mut Watched::new(reader)).map_err(|_| CallFault::Capture)?;
    merge(alloc, capture.records, Vec::new(alloc)).map_err(|_| CallFault::Call)
}

/// Makes the run over workers, with a gate.
fn over_workers<
    R: AllocGlobal + Threads + Wait + Copy + Send + 'static,
    G: Gate + Send + Sync + Drop + 'static,
>(rt: &R, config: &Config, inputs: &[napt_run::Input], gate: G) -> Result<Run, CallFault> {
    let gate = Arc::new(rt.alloc(), gate).map_err(|_| CallFault::Call)?;
    run_workers(rt, rt.alloc(), config, inputs, gate).map_err(|_| CallFault::Call)
}

/// Prints the line of counts.
fn print_counts<R: Print>(rt: &R, run: &Run) -> io::Result<()> {
    macro_rules! count {
        ($end:ident) => {
            run.outcomes.iter().filter(|it| matches!(it, Outcome::$end(_))).count()
        };
    }
    let packets = run.outcomes.len();
    let (to_outside, to_inside, dropped) = (count!(ToOutside), count!(ToInside), count!(Dropped));
    print!(rt;
        "packets {packets} to-outside {to_outside} to-inside {to_inside} dropped {dropped} legs"
    )?;
    for legs in &run.legs {
        print!(rt; " {legs}")?;
    }
    println!(rt; "")
}
