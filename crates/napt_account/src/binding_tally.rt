//! The bindings that an input used.

ghost use Rattle.std.specs.Prelude.{◌≡◌};
ghost use Rattle.napt_account.specs.BindingTallies as uses;

use crate::log::Entry;
use napt_wire::Way;

/// The relation of a packet to the first binding that it used.
#[derive(Clone, Copy, Debug, PartialEq, Eq)]
pub enum LogNote {
    /// The packet used no binding: it was dropped earlier, is an ICMP error, or found none.
    Nothing,
    /// The packet made the binding.
    Made,
    /// The packet found the binding.
    Found,
    /// The packet found a redirect.
    Redirect,
}

/// The bindings that a packet used, by the numbers of their entries in the log.
#[derive(Clone, Copy, Debug, PartialEq, Eq)]
pub struct BindingTally {
    /// The relation of the packet to the first binding that it used.
    pub note: LogNote,
    /// The number of the entry of the binding through which it went out, if any.
    pub outbound: Option<u64>,
    /// The number of the entry of the binding through which it came in. A hairpin has both numbers.
    pub inbound: Option<u64>,
}

/// The tally of an input that used no binding.
pub(crate) const NO_USE: BindingTally = BindingTally {
    note: LogNote::Nothing,
    outbound: None,
    inbound: None,
};

/// Returns the note for a packet whose binding existed before it.
pub(crate) fn found_note(entry: &Entry) -> LogNote
    ensures { result ≡ uses.noted entry.now }
{
    if entry.binding.fixed {
        LogNote::Redirect
    } else {
        LogNote::Found
    }
}

impl BindingTally {
    /// Returns the tally of a packet that went through the binding with this entry number.
    #[inline(always)]
    pub(crate) fn through(way: Way, note: LogNote, number: u64) -> BindingTally
        ensures { result ≡ uses.tally_used way note number }
    {
        match way {
            Way::Outgoing => BindingTally {
                note,
                outbound: Some(number),
                inbound: None,
            },
            Way::Incoming => BindingTally {
                note,
                outbound: None,
                inbound: Some(number),
            },
        }
    }
}

/// Returns the tally of an input from those of its two legs.
pub(crate) fn both_uses(first: BindingTally, second: BindingTally) -> BindingTally
    ensures { result ≡ uses.both_uses first second }
{
    BindingTally {
        note: match first.note {
            LogNote::Nothing => second.note,
            note => note,
        },
        outbound: first.outbound.or(second.outbound),
        inbound: first.inbound.or(second.inbound),
    }
}
