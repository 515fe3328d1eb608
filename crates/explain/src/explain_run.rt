//! A run over captures, as the command line requests it.

use crate::captures::{CaptureInputs, OpenCaptures, RefusedRun, StartedCaptures};
use crate::explanation::{NewRun, RunInProgress};
use crate::follow_command::follow;
use crate::options::{ExplainOptions, OutputForm};
use crate::reading::{GivenLog, RunStarts};
use napt_attribution::{Holders, begin_run_log};
use napt_capture::{EmptySource, Source, Watched};
use napt_commands::{CommandOutput, Exit, RunStart, pass_all};
use napt_lines::{
    PacketLines, PacketObjects, Replies, RunComparison, SinglePacket, inside_endpoints_of,
};
use napt_program::{InputFiles, StandardStreams, print_new_entries};
use napt_sequential::Input;
use napt_wire::Side;
use std::io::Read;
use std::rt::Files;

/// The options of a run, with its configurations and its starts.
#[derive(Clone, Copy)]
pub struct ExplainRun<'a> {
    streams: StandardStreams,
    options: &'a ExplainOptions<'a>,
    given: &'a GivenLog,
    starts: &'a RunStarts<'a>,
}

impl<'a> ExplainRun<'a> {
    /// Returns the setting of a run that the command line requests.
    pub fn new(
        streams: StandardStreams,
        options: &'a ExplainOptions<'a>,
        given: &'a GivenLog,
        starts: &'a RunStarts<'a>,
    ) -> ExplainRun<'a> {
        ExplainRun {
            streams,
            options,
            given,
            starts,
        }
    }

    fn refusing(self) -> RefusedRun<'a> {
        RefusedRun {
            options: self.options,
            config: &self.given.config,
        }
    }

    /// Reads the captures, the header of the inside one first, and prints the run.
    pub fn read<R: Files + Print + Eprint + AllocGlobal, S: Read + Drop, F: Read + Drop>(
        self,
        rt: &R,
        files: InputFiles<S, F>,
    ) -> Result<(), Exit> {
        let InputFiles { inside, outside } = files;
        let StartedCaptures { head, reader } = self.refusing().begin(rt, Side::Inside, inside)?;
        let mut source = Watched::new(head.as_slice().chain(reader));
        let inside = self.refusing().open(rt, Side::Inside, &head, &mut source)?;
        match outside {
            Some(outside) => {
                let StartedCaptures { head, reader } = self
                    .refusing()
                    .begin(rt, Side::Outside, outside)?;
                let mut source = Watched::new(head.as_slice().chain(reader));
                let outside = self.refusing().open(rt, Side::Outside, &head, &mut source)?;
                self.explain_both(rt, inside, outside)
            }
            None => {
                let mut source = EmptySource::new();
                let outside = self.refusing().open(rt, Side::Outside, &[], &mut source)?;
                self.explain_both(rt, inside, outside)
            }
        }
    }

    /// Explains the packets of two captures.
    fn explain_both<R: Files + Print + Eprint + AllocGlobal, A: Source, B: Source>(
        self,
        rt: &R,
        inside: OpenCaptures<'_, A>,
        outside: OpenCaptures<'_, B>,
    ) -> Result<(), Exit> {
        let clock = self.starts.first.clock();
        let mut captures = CaptureInputs::new(rt.alloc(), self.refusing(), clock, inside, outside);
        let answer = self.explain(rt, &mut captures);
        captures.close();
        answer
    }

    /// Explains the packets of the captures.
    fn explain<R: Files + Print + Eprint + AllocGlobal, A: Source, B: Source>(
        self,
        rt: &R,
        captures: &mut CaptureInputs<'_, '_, '_, A, B>,
    ) -> Result<(), Exit> {
        if !self.streams.output {
            return Err(Exit::NoOutput);
        }
        match (self.options.form, &self.starts.other) {
            (OutputForm::Differences, Some(other)) => self.explain_against(rt, captures, other),
            (OutputForm::Followed(path), _) => self.write_followed(rt, captures, path),
            _ => self.explain_run(rt, captures),
        }
    }

    /// Explains which packets have another outcome under another configuration.
    fn explain_against<R: Print + Eprint + AllocGlobal, A: Source, B: Source>(
        self,
        rt: &R,
        captures: &mut CaptureInputs<'_, '_, '_, A, B>,
        other: &'a RunStart<'a>,
    ) -> Result<(), Exit> {
        let options = self.options;
        let first = &self.starts.first;
        let mut against = RunComparison::begin(rt.alloc(), options.choice, first, other)?;
        if options.outside.follows() {
            let inputs = captures.read_all(rt)?;
            against.follow(rt, options.outside, &inputs)?;
        } else {
            captures.pass_to(rt, &mut against)?;
        }
        captures.flaws().print(rt, options.form)?;
        let path = options.files.config.as_ref();
        let name = path.map_or("the built-in configuration", |path| path.as_str());
        let other = options.other.as_ref().map_or("", |path| path.as_str());
        against.print(rt, options.outside, [name, other])
    }

    /// Explains the packets as they are read, or all of them at the end if replies follow the run.
    fn explain_run<R: Files + Print + Eprint + AllocGlobal, A: Source, B: Source>(
        self,
        rt: &R,
        captures: &mut CaptureInputs<'_, '_, '_, A, B>,
    ) -> Result<(), Exit> {
        let (options, config) = (self.options, self.starts.first.config());
        if !options.outside.follows() {
            return self.explain_packets(rt, captures, None, None);
        }
        let mut inputs = captures.read_all(rt)?;
        let ends = inside_endpoints_of(rt.alloc(), &mut inputs)?;
        let inputs = options.outside.inputs_under(rt.alloc(), config, inputs)?;
        let replies = Replies::new(options.outside, config, &ends);
        self.explain_packets(rt, captures, Some(inputs.as_slice()), replies)
    }

    /// Explains the packets, from memory or from the captures, in the output of the command.
    fn explain_packets<R: Files + Print + Eprint + AllocGlobal, A: Source, B: Source>(
        self,
        rt: &R,
        captures: &mut CaptureInputs<'_, '_, '_, A, B>,
        kept: Option<&[Input]>,
        replies: Option<Replies<'_>>,
    ) -> Result<(), Exit> {
        let (options, start) = (self.options, &self.starts.first);
        let (alloc, choice) = (rt.alloc(), options.choice);
        let begun = NewRun::from_start(alloc, start)?;
        let packets = RunPackets {
            options,
            kept,
            replies,
        };
        match (options.form, choice.only) {
            (OutputForm::Objects, _) => {
                packets.explain(rt, captures, begun, PacketObjects { choice, replies })
            }
            (OutputForm::Log(paths), _) => {
                if start.begins_entries() {
                    print_new_entries(rt, alloc, "explain", start.clock())?;
                }
                let is_held = options.is_of_gateway();
                let log = begin_run_log(rt, paths, is_held, start.config(), begun.opening())?;
                packets.explain(rt, captures, begun, log)
            }
            (OutputForm::Holders(_) | OutputForm::Requests(_), _) => {
                let mut holders = Holders::new(alloc, &self.given.asked)?;
                holders.add(&begun.ended)?;
                packets.explain(rt, captures, begun, holders)
            }
            (_, Some(number)) => {
                let output = SinglePacket::new(number, choice, replies);
                packets.explain(rt, captures, begun, output)
            }
            (_, None) => { packets.explain(rt, captures, begun, PacketLines::new(choice, replies)) }
        }
    }

    /// Writes the outside capture of the replies, after all packets have been read.
    fn write_followed<R: Files + Print + Eprint + AllocGlobal, A: Source, B: Source>(
        self,
        rt: &R,
        captures: &mut CaptureInputs<'_, '_, '_, A, B>,
        path: &str,
    ) -> Result<(), Exit> {
        let (options, start) = (self.options, &self.starts.first);
        let inputs = captures.read_all(rt)?;
        let inputs = options
            .outside
            .inputs_under(rt.alloc(), start.config(), inputs)?;
        captures.flaws().print(rt, options.form)?;
        follow(rt, path, options.outside, start, &inputs)
    }
}

/// The packets of a run that is explained, from captures, or from memory if replies follow the run.
#[derive(Clone, Copy)]
struct RunPackets<'a, 'i, 'k> {
    options: &'a ExplainOptions<'a>,
    kept: Option<&'i [Input]>,
    replies: Option<Replies<'k>>,
}

impl<'a, 'i, 'k> RunPackets<'a, 'i, 'k> {
    /// Passes the packets to the output of a command.
    fn explain<R, A: Source, B: Source, O: CommandOutput<R> + Drop>(
        self,
        rt: &R,
        captures: &mut CaptureInputs<'_, '_, '_, A, B>,
        begun: NewRun<'a>,
        output: O,
    ) -> Result<(), Exit>
    where
        R: Files + Print + Eprint + AllocGlobal,
    {
        let mut explanation = RunInProgress::begin(rt, self.options, begun, self.replies, output)?;
        match self.kept {
            None => captures.pass_to(rt, &mut explanation)?,
            Some(inputs) => pass_all(rt, inputs, &mut explanation)?,
        }
        explanation.end(rt, captures.flaws())
    }
}
