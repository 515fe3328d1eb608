//! The files that `explain log` writes: the log and, if requested, the packets and the report.

use crate::blocks::print_log_not_needed;
use crate::log_file::{LogFile, LogOpening, begin_log};
use crate::packet_file::{PacketFile, begin_packets};
use napt_commands::{
    CommandOutput, Coverage, EndedRun, Exit, LineBuffer, RunPacket, print_unwritten,
};
use napt_config::Config;
use napt_records::{OutcomeCounts, report_of};
use std::fs;
use std::io::Write;
use std::rt::Files;

/// The paths of the files.
#[derive(Clone, Copy)]
pub struct LogPaths<'a> {
    /// The log, or standard output if absent.
    pub log: Option<&'a str>,
    /// A file with a row for each packet.
    pub packets: Option<&'a str>,
    pub report: Option<&'a str>,
}

/// A log that is being written, with the packets and the report of its run. `W` is a file.
#[derive(Drop)]
pub struct RunLog<'a, W> {
    log: LogFile<'a, W>,
    packets: Option<PacketFile<'a, W>>,
    report: Option<RunReport<'a>>,
}

/// The counts of a run so far, and the path of its report.
#[derive(Drop)]
struct RunReport<'a> {
    path: &'a str,
    counts: OutcomeCounts,
    coverage: Coverage,
}

/// Begins the files of a run that begins with this log. If one cannot be created, prints its path
/// and the system's reason.
pub fn begin_run_log<'a, R: Files + Print + Eprint + AllocGlobal>(
    rt: &R,
    paths: LogPaths<'a>,
    is_held: bool,
    config: &Config,
    opening: LogOpening<'_>,
) -> Result<RunLog<'a, R::File>, Exit> {
    let log = begin_log(rt, paths.log, is_held, config, opening)?;
    let packets = match paths.packets {
        Some(path) => Some(begin_packets(rt, path, is_held)?),
        None => None,
    };
    Ok(RunLog {
        log,
        packets,
        report: paths.report.map(RunReport::new),
    })
}

impl<'a> RunReport<'a> {
    fn new(path: &'a str) -> RunReport<'a> {
        RunReport {
            path,
            counts: OutcomeCounts::new(),
            coverage: Coverage::default(),
        }
    }

    /// Prints which packets the captures lack for figures, and writes the report. If that fails,
    /// prints the file and the system's reason.
    fn write<R: Files + Eprint + AllocGlobal>(
        &self,
        rt: &R,
        ending: &EndedRun<'_>,
    ) -> Result<(), Exit> {
        self.coverage.print(rt);
        self.coverage.print_living(rt, &ending.living);
        let cuts = ending.cuts;
        let text = report_of(
            rt.alloc(),
            &self.counts,
            &ending.rows,
            cuts.inside,
            cuts.outside,
        )?;
        match fs::write(rt, self.path, text.as_str()) {
            Ok(()) => Ok(()),
            Err(error) => Err(print_unwritten(rt, "--report", self.path, &error)),
        }
    }
}

impl<R: Files + Print + Eprint + AllocGlobal, W: Write + Drop> CommandOutput<R> for RunLog<'_, W> {
    fn take(
        &mut self,
        rt: &R,
        config: &Config,
        passing: RunPacket<'_>,
        _text: &mut String,
    ) -> Result<(), Exit> {
        if let Some(packets) = &mut self.packets {
            packets.take(rt, passing)?;
        }
        if let Some(report) = &mut self.report {
            report.counts.count(&passing.step.outcome);
            report.coverage.count_packet(passing.input, passing.step);
        }
        self.log.take(rt, config, passing)
    }

    /// Writes the rows so far, unless they are buffered until the end.
    fn settle(&mut self, rt: &R) -> Result<(), Exit> {
        if let Some(packets) = &mut self.packets {
            packets.rows.settle(rt)?;
        }
        self.log.rows.settle(rt)
    }

    /// Writes the rest of all files. Without a report, prints if blocks make a log unnecessary.
    fn end(self, rt: &R, _page: &mut LineBuffer, ending: &EndedRun<'_>) -> Result<(), Exit> {
        let RunLog {
            mut log,
            mut packets,
            report,
        } = self;
        if let Some(packets) = &mut packets {
            packets.rows.finish(rt)?;
        }
        log.finish(rt, ending.config, &ending.living)?;
        match &report {
            Some(report) => report.write(rt, ending),
            None => {
                print_log_not_needed(rt, ending.config);
                Ok(())
            }
        }
    }
}
