//! Finds packets from outside that answer packets which left just before. Only the remotes of the
//! last minutes and of live bindings are retained.

use napt_account::LogNote;
use napt_commands::{Exit, LossCounts, RunPacket, destination_of, source_of};
use napt_sequential::Outcome;
use napt_wire::{Cause, Protocol, Side};
use std::alloc::{AllocError, Global};
use std::collections::BTreeMap;

/// The time in ns, after an inside packet to a remote, for which its packets count as answers.
const JUST_BEFORE: u64 = 60_000_000_000;

/// The number of remotes at which old ones are removed.
const FEW: usize = 1024;

/// The greatest number of remotes of a binding. Nothing is known about a binding that sent to more.
const MOST: usize = 64;

/// A remote endpoint: its protocol, address and port, 0 for echoes; or an address alone.
type Remote = (Option<Protocol>, u32, u16);

/// The packets that inside hosts sent to a remote.
#[derive(Clone, Copy)]
struct SentCounts {
    /// The time in ns of the last packet.
    at: u64,
    /// The sender of the last packet.
    last: Sender,
    /// Whether other hosts sent packets to the remote, too.
    by_others: bool,
}

/// The sender of a packet from inside.
#[derive(Clone, Copy)]
struct Sender {
    host: u32,
    /// Its port, or the identifier of an echo request, if the packet is of such a kind.
    number: Option<u16>,
    /// The number of the binding's entry in the log, if it has one.
    binding: Option<u64>,
}

/// The remotes of a binding.
#[derive(Drop)]
struct BindingRemotes {
    /// Those to which it sent, up to `MOST`.
    sent: Vec<Remote>,
    /// Whether a packet from outside went in through it.
    is_answered: bool,
}

/// The remotes so far, and counts of packets from outside.
#[derive(Drop)]
pub struct Remotes {
    sent: BTreeMap<Remote, SentCounts>,
    /// The number of remotes at which old ones are removed next.
    full: usize,
    /// The remotes of each live binding that the run made, by the number of its entry in the log.
    of_bindings: BTreeMap<u64, BindingRemotes>,
    /// The number of answers among the packets that found no binding or were not for the gateway.
    unmet_answers: u64,
    /// The number of answers for the gateway.
    answers: u64,
    /// How many of them went to another host than the one that had sent the request, or to none.
    astray: u64,
    /// The number of the first packet that `astray` counts, or 0.
    first_astray: u64,
}

impl Remotes {
    /// Returns the counts before the first packet.
    pub fn new(alloc: Global) -> Remotes {
        Remotes {
            sent: BTreeMap::new(alloc),
            full: FEW,
            of_bindings: BTreeMap::new(alloc),
            unmet_answers: 0,
            answers: 0,
            astray: 0,
            first_astray: 0,
        }
    }

    /// Returns whether at least half of the packets from outside that found no binding, or were not
    /// for the gateway, are answers.
    pub fn are_answers(&self, losses: &LossCounts) -> bool {
        let others = losses.unmet().saturating_sub(self.unmet_answers);
        self.unmet_answers > 0 && self.unmet_answers >= others
    }

    /// Returns whether more than one answer, and more than one in a thousand, do not reach the host
    /// that asked for them, since the captured gateway used other numbers.
    pub fn are_astray(&self) -> bool {
        self.astray > 1 && self.astray > self.answers / 1_000
    }

    /// Prints that the captured gateway used other numbers than the run, which therefore does not
    /// show what the gateway did, and returns the stop.
    pub fn print_astray<R: Eprint>(&self, rt: &R) -> Exit {
        let (astray, answers, first) = (self.astray, self.answers, self.first_astray);
        let _ = eprintln!(rt;
            "explain: the captured gateway used other numbers: {astray} of {answers} answers from outside, the first of them packet \
{first}, do not reach the host that asked for them (to answer from the run of napt, give --as-napt)"
        );
        Exit::OtherNumbers
    }

    /// Counts the next packet.
    pub fn add_packet(&mut self, alloc: Global, passing: RunPacket<'_>) -> Result<(), AllocError> {
        let step = passing.step;
        for listed in &step.part.ended {
            self.of_bindings.remove(&listed.number);
        }
        for listed in &step.part.made {
            let remotes = BindingRemotes {
                sent: Vec::new(alloc),
                is_answered: false,
            };
            self.of_bindings.insert(listed.number, remotes)?;
        }
        let input = passing.input;
        match (input.side, &step.outcome) {
            (Side::Inside, Outcome::ToOutside(_)) => self.send(passing),
            (Side::Outside, outcome) if step.part.used.note != LogNote::Redirect => {
                self.count_from_outside(passing, outcome);
                self.note_answered(passing);
                Ok(())
            }
            _ => Ok(()),
        }
    }

    /// Records an inside packet that leaves.
    fn send(&mut self, passing: RunPacket<'_>) -> Result<(), AllocError> {
        let input = passing.input;
        let (bytes, now) = (&input.bytes, input.clock);
        let (Some(host), Some(address)) = (source_of(bytes), destination_of(bytes)) else {
            return Ok(());
        };
        let last = Sender {
            host,
            number: inside_number(bytes, Side::Inside),
            binding: passing.step.part.used.outbound,
        };
        self.note((None, address, 0), last, now)?;
        let Some(remote) = remote_of(bytes, Side::Inside) else {
            return Ok(());
        };
        if let Some(number) = last.binding
            && let Some(remotes) = self.of_bindings.get_mut(&number)
            && remotes.sent.len() < MOST
            && !remotes.sent.contains(&remote)
        {
            remotes.sent.push(remote)?;
        }
        self.note(remote, last, now)
    }

    /// Records that a packet from outside went in through the binding that it used, if it used one.
    fn note_answered(&mut self, passing: RunPacket<'_>) {
        if let Some(number) = passing.step.part.used.inbound
            && let Some(remotes) = self.of_bindings.get_mut(&number)
        {
            remotes.is_answered = true;
        }
    }

    /// Records that a host sent to a remote.
    fn note(&mut self, remote: Remote, last: Sender, now: u64) -> Result<(), AllocError> {
        let mut sent = SentCounts {
            at: now,
            last,
            by_others: false,
        };
        match self.sent.get_mut(&remote) {
            Some(before) => {
                sent.by_others = before.by_others || before.last.host != last.host;
                *before = sent;
            }
            None => {
                self.remove_stale(now);
                self.sent.insert(remote, sent)?;
            }
        }
        Ok(())
    }

    /// Removes the remotes to which nothing was sent for a minute, once their number has doubled.
    fn remove_stale(&mut self, now: u64) {
        if self.sent.len() < self.full {
            return;
        }
        self.sent
            .retain(|_, sent| now.saturating_sub(sent.at) <= JUST_BEFORE);
        self.full = self.sent.len().saturating_mul(2).max(FEW);
    }

    /// Returns the packets sent to a remote, if one was sent to it within the minute before.
    fn recently_sent(&self, remote: Remote, now: u64) -> Option<SentCounts> {
        let sent = self.sent.get(&remote).copied()?;
        (now.saturating_sub(sent.at) <= JUST_BEFORE).then_some(sent)
    }

    /// Counts a packet from outside, as an answer if a packet left for its remote just before.
    fn count_from_outside(&mut self, passing: RunPacket<'_>, outcome: &Outcome) {
        let input = passing.input;
        let (bytes, now) = (&input.bytes, input.clock);
        if matches!(outcome, Outcome::Dropped(Cause::NoBinding | Cause::NotOurs))
            && let Some(address) = source_of(bytes)
            && self.recently_sent((None, address, 0), now).is_some()
        {
            self.unmet_answers = self.unmet_answers.saturating_add(1);
        }
        if let Some(remote) = remote_of(bytes, Side::Outside)
            && let Some(sent) = self.recently_sent(remote, now)
        {
            self.answer(passing, outcome, remote, sent);
        }
    }

    /// Counts a packet from a remote to which these packets were sent just before.
    fn answer(
        &mut self,
        passing: RunPacket<'_>,
        outcome: &Outcome,
        remote: Remote,
        sent: SentCounts,
    ) {
        let input = passing.input;
        let number = inside_number(&input.bytes, Side::Outside);
        let is_astray = match outcome {
            Outcome::Dropped(cause) => *cause == Cause::NoBinding,
            Outcome::ToInside(packet) => {
                let is_another = packet.destination().address != sent.last.host;
                let has_not_sent = (is_another || sent.by_others)
                    && !self.has_sent(passing.step.part.used.inbound, remote);
                has_not_sent || (is_another && self.is_asked_by(sent.last, number))
            }
            Outcome::ToOutside(_) => false,
        };
        if is_astray || matches!(outcome, Outcome::ToInside(_)) {
            self.answers = self.answers.saturating_add(1);
        }
        if is_astray {
            if self.astray == 0 {
                self.first_astray = passing.number;
            }
            self.astray = self.astray.saturating_add(1);
        }
    }

    /// Returns whether a packet of the binding with a number went to a remote, or may have.
    fn has_sent(&self, number: Option<u64>, remote: Remote) -> bool {
        match number.and_then(|number| self.of_bindings.get(&number)) {
            Some(remotes) => remotes.sent.len() >= MOST || remotes.sent.contains(&remote),
            None => true,
        }
    }

    /// Returns whether a sender seems to have asked for a packet that comes to an external number:
    /// it sent from this number, and nothing came to it in the run. Many gateways keep the number.
    fn is_asked_by(&self, sender: Sender, number: Option<u16>) -> bool {
        let remotes = sender.binding.and_then(|it| self.of_bindings.get(&it));
        let is_unanswered = remotes.is_some_and(|remotes| !remotes.is_answered);
        is_unanswered && number.is_some() && number == sender.number
    }
}

/// Returns the number of the inside host or of the gateway in a packet from a side: its port, or
/// the identifier of an echo, unless it is an ICMP error.
fn inside_number(bytes: &[u8], side: Side) -> Option<u16> {
    let transport = bytes.get(usize::from(*bytes.first()? & 15) * 4..)?;
    let place = match (*bytes.get(9)?, side) {
        (1, _) if matches!(transport.first(), Some(0 | 8)) => 4,
        (6 | 17, Side::Inside) => 0,
        (6 | 17, Side::Outside) => 2,
        _ => return None,
    };
    let number = transport.get(place..)?.first_chunk::<2>()?;
    Some(u16::from_be_bytes(*number))
}

/// Returns the remote endpoint in the headers of a packet from a side, unless it is an ICMP error.
fn remote_of(bytes: &[u8], side: Side) -> Option<Remote> {
    let (address, ports) = match side {
        Side::Inside => (destination_of(bytes)?, 2),
        Side::Outside => (source_of(bytes)?, 0),
    };
    let transport = bytes.get(usize::from(*bytes.first()? & 15) * 4..)?;
    let protocol = match *bytes.get(9)? {
        1 if matches!(transport.first(), Some(0 | 8)) => {
            return Some((Some(Protocol::Icmp), address, 0));
        }
        6 => Protocol::Tcp,
        17 => Protocol::Udp,
        _ => return None,
    };
    let port = transport.get(ports..)?.first_chunk::<2>()?;
    Some((Some(protocol), address, u16::from_be_bytes(*port)))
}
