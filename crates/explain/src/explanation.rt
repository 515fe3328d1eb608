//! A run in progress, for one command.

use crate::flaws::CaptureFlaws;
use crate::options::ExplainOptions;
use crate::progress::ExplainProgress;
use napt_account::{LogEntry, LoggedRun, OpenLog, RunFromState};
use napt_attribution::LogOpening;
use napt_commands::{
    CommandOutput, EndedRun, Exit, LineBuffer, LossCounts, PacketConsumer, RunPacket, RunStart,
    print_warning,
};
use napt_lines::{PacketLine, Remotes, Replies, UnmatchedSelection};
use napt_sequential::Input;
use std::alloc::{AllocError, Global};
use std::rt::Files;

/// A run before its first packet.
#[derive(Drop)]
pub struct NewRun<'a> {
    run: LoggedRun<'a>,
    /// The time from which the run continues, in ns.
    clock: u64,
    /// The log as it was saved.
    pub before: OpenLog,
    /// The entries that end at that time, and the entries that begin there.
    pub ended: Vec<LogEntry>,
    pub made: Vec<LogEntry>,
}

impl<'a> NewRun<'a> {
    /// Returns the run of a start, before its first packet.
    pub fn from_start(alloc: Global, start: &RunStart<'a>) -> Result<NewRun<'a>, AllocError> {
        let RunFromState {
            run,
            before,
            ended,
            made,
        } = start.logged_run(alloc)?;
        Ok(NewRun {
            run,
            clock: start.clock(),
            before,
            ended,
            made,
        })
    }
}

impl NewRun<'_> {
    /// Returns the beginning of its log.
    pub fn opening(&self) -> LogOpening<'_> {
        LogOpening {
            before: &self.before,
            ended: &self.ended,
            made: &self.made,
        }
    }
}

/// A run in progress. `O` is the output of the command.
#[derive(Drop)]
pub struct RunInProgress<'a, 'b, O> {
    options: &'a ExplainOptions<'a>,
    running: LoggedRun<'a>,
    output: O,
    losses: LossCounts,
    remotes: Remotes,
    /// The packets from outside, if they are replies.
    replies: Option<Replies<'b>>,
    unmatched: UnmatchedSelection,
    progress: ExplainProgress,
    page: LineBuffer,
    /// The number of packets, the time from which the run continues, and the latest time, in ns.
    packets: u64,
    first: u64,
    last: u64,
}

impl<'a, 'b, O: Drop> RunInProgress<'a, 'b, O> {
    /// Begins the run, before its first packet.
    pub fn begin<R: Files + AllocGlobal>(
        rt: &R,
        options: &'a ExplainOptions<'a>,
        begun: NewRun<'a>,
        replies: Option<Replies<'b>>,
        output: O,
    ) -> Result<RunInProgress<'a, 'b, O>, Exit> {
        let alloc = rt.alloc();
        Ok(RunInProgress {
            options,
            output,
            losses: LossCounts::new(alloc, begun.run.config())?,
            remotes: Remotes::new(alloc),
            replies,
            unmatched: UnmatchedSelection::new(options.choice, &begun.run.living(alloc)?),
            progress: ExplainProgress::new(rt),
            page: LineBuffer::new(alloc),
            packets: 0,
            first: begun.clock,
            last: begun.clock,
            running: begun.run,
        })
    }

    /// Prints the output that needs the end of the run, after all packets.
    pub fn end<R: Print + Eprint + AllocGlobal>(
        self,
        rt: &R,
        flaws: CaptureFlaws,
    ) -> Result<(), Exit>
    where
        O: CommandOutput<R>,
    {
        let RunInProgress {
            options,
            running,
            output,
            losses,
            remotes,
            unmatched,
            progress,
            mut page,
            packets,
            first,
            last,
            ..
        } = self;
        page.end(rt)?;
        progress.print_end(rt, packets);
        flaws.print(rt, options.form)?;
        if options.is_of_gateway() && remotes.are_astray() {
            return Err(remotes.print_astray(rt));
        }
        print_warning(rt, options.outside, None, &losses);
        let ending = EndedRun {
            config: running.config(),
            packets,
            first,
            last,
            later: flaws.step_back.length(),
            cuts: flaws.cuts,
            are_answers: remotes.are_answers(&losses),
            losses,
            rows: running.bindings(rt.alloc())?,
            living: running.living(rt.alloc())?,
        };
        unmatched.print(rt);
        output.end(rt, &mut page, &ending)
    }
}

impl<R: Print + Eprint + AllocGlobal, O: CommandOutput<R> + Drop> PacketConsumer<R>
    for RunInProgress<'_, '_, O> {
    fn take(&mut self, rt: &R, number: u64, input: &Input) -> Result<(), Exit> {
        let alloc = rt.alloc();
        let config = self.running.config();
        let step = match self.running.step(alloc, input) {
            Ok(step) => step,
            Err(fault) => {
                self.settle(rt)?;
                return Err(Exit::from(fault));
            }
        };
        let passing = RunPacket {
            number,
            input,
            step: &step,
        };
        self.packets = number;
        self.last = self.last.max(input.clock);
        self.losses.count_packet(config, input, &step.outcome);
        if self.replies.is_none() {
            self.remotes.add_packet(alloc, passing)?;
        }
        let line = PacketLine::new(passing, self.replies);
        self.unmatched.add_packet(alloc, line, &step.part.made)?;
        self.output.take(rt, config, passing, &mut self.page.text)?;
        self.page.write_if_full(rt)?;
        self.progress.print(rt, number);
        Ok(())
    }

    fn settle(&mut self, rt: &R) -> Result<(), Exit> {
        self.output.settle(rt)?;
        self.page.end(rt)
    }
}
