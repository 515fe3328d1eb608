//! Requests for the holders of external endpoints (RFC 6888, section 4; RFC 6269, section 12).
ghost use Rattle.std.specs.Prelude.{◌≡◌, IfOk};
ghost use Rattle.napt_log_text.specs.Requests as requests;

use napt_account::{Entry, Party};
use napt_wire::Protocol;
use std::alloc::{AllocError, Global};

/// A span of time in ns since 1970-01-01 UTC. It contains `first`, and ends before `until`.
#[derive(Clone, Copy, Debug, PartialEq, Eq)]
pub struct TimeSpan {
    pub first: u128,
    pub until: u128,
}

/// A request for the holders of an external endpoint, or of any endpoint of an external address.
#[derive(Clone, Copy)]
pub struct Request {
    /// The protocol, or any protocol if absent.
    pub protocol: Option<Protocol>,
    pub party: Party,
    /// The requested span: the endpoint was in use at some moment in it. `None` means any time.
    pub at: Option<TimeSpan>,
}

/// The entries of the last holder of an endpoint before a span, and of the first holder after it.
#[derive(Clone, Copy)]
pub struct NearestEntries {
    /// The entry that ended last, or the one that was made last if several ended at the same time.
    pub before: Option<Entry>,
    /// The entry that was made first.
    pub after: Option<Entry>,
}

impl Request {
    /// Returns the entries that answer the request, in order. Fails only if memory is refused.
    pub fn holders_among(&self, alloc: Global, entries: &[Entry]) -> Result<Vec<Entry>, AllocError>
        ensures { IfOk result (λ found. found.items ≡ requests.holders self.now entries.now) }
    {
        entries
            .iter()
            .filter(|entry| self.is_holder(*entry))
            .copied()
            .collect(alloc)
    }

    /// Returns the nearest holders among the entries of a log.
    pub fn nearest_among(&self, entries: &[Entry]) -> NearestEntries
        ensures before { result.before ≡ requests.last_before self.now entries.now }
        ensures after { result.after ≡ requests.first_after self.now entries.now }
    {
        NearestEntries {
            before: self.last_before(entries),
            after: entries.iter().copied().find(|entry| self.is_next(entry)),
        }
    }

    /// Returns whether the binding of an entry had the endpoint at some time.
    fn is_asked(&self, entry: &Entry) -> bool
        ensures { result ≡ requests.is_asked self.now entry.now }
    {
        is_requested_protocol(self.protocol, entry.binding.protocol)
            && self.party.has(entry.binding.external)
    }

    /// Returns whether the binding had the endpoint at some moment of the span.
    fn is_holder(&self, entry: &Entry) -> bool
        ensures { result ≡ requests.is_holder self.now entry.now }
    {
        self.is_asked(entry)
            && match self.at {
                Some(span) => span.overlaps(entry),
                None => true,
            }
    }

    /// Returns whether the binding had the endpoint and was made after the span.
    fn is_next(&self, entry: &Entry) -> bool
        ensures { result ≡ requests.is_next self.now entry.now }
    {
        self.is_asked(entry)
            && match self.at {
                Some(span) => span.until <= u128::from(entry.made),
                None => false,
            }
    }

    /// Returns whether the binding had the endpoint and had ended before the span.
    fn is_past(&self, entry: &Entry) -> bool
        ensures { result ≡ requests.is_past self.now entry.now }
    {
        self.is_asked(entry)
            && match (self.at, entry.end) {
                (Some(span), Some(end)) => end <= span.first,
                _ => false,
            }
    }

    /// Returns the entry that ended last among the holders that had ended before the span.
    fn last_before(&self, entries: &[Entry]) -> Option<Entry>
        ensures { result ≡ requests.last_before self.now entries.now }
    {
        entries
            .iter()
            .fold(None, |last, entry| self.last_so_far(last, entry))
    }

    /// Returns the last holder before the span among the entries up to this one.
    fn last_so_far(&self, last: Option<Entry>, entry: &Entry) -> Option<Entry>
        ensures { result ≡ requests.last_so_far self.now last entry.now }
    {
        if self.is_past(entry) {
            Some(later(last, entry))
        } else {
            last
        }
    }
}

impl TimeSpan {
    /// Returns whether the binding of an entry has a moment in common with the span.
    fn overlaps(self, entry: &Entry) -> bool
        ensures { result ≡ requests.has_moment_of self entry.now }
    {
        u128::from(entry.made) < self.until
            && match entry.end {
                Some(end) => self.first < end,
                None => true,
            }
    }
}

/// Returns whether a protocol is the requested one, if one is requested.
fn is_requested_protocol(wanted: Option<Protocol>, protocol: Protocol) -> bool
    ensures { result ≡ requests.holder_is_of wanted protocol }
{
    match (wanted, protocol) {
        (None, _)
        | (Some(Protocol::Icmp), Protocol::Icmp)
        | (Some(Protocol::Tcp), Protocol::Tcp)
        | (Some(Protocol::Udp), Protocol::Udp) => true,
        _ => false,
    }
}

/// Returns the entry that ended later, and the second if both ended at one time.
fn later(found: Option<Entry>, entry: &Entry) -> Entry
    ensures { result ≡ requests.later_ended found entry.now }
{
    match found {
        Some(found) if is_later(found.end, entry.end) => found,
        _ => *entry,
    }
}

/// Returns whether the first of two ends is the later one.
fn is_later(one: Option<u128>, other: Option<u128>) -> bool
    ensures { result ≡ requests.is_later one other }
{
    match (one, other) {
        (Some(one), Some(other)) => one > other,
        _ => false,
    }
}
