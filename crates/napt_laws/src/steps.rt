//! Laws of lists of bindings: the list at the start, the effect of a packet, and the rows' order.

ghost use Rattle.napt_rules.specs.Prelude.{RowsAreInOrder, OpeningIsSound, PurgeStaysSound, OutboundStaysSound, InboundStaysSound, SoundListsAreApart, OutboundLeavesTaken, InboundLeavesTaken, PurgeIsLocal, LaterPurgeCounts, OutboundIsLocal, OutboundLeavesOthers, InboundIsLocal, InboundLeavesOthers, PurgeKeepsQuota, OutboundKeepsQuota, InboundKeepsQuota};
ghost use Rattle.napt_laws.specs.HoldTimes.{OutKeepsAccounts, InKeepsAccounts, AccountsBegin, HeldTimesAreFar};

/// Law: no two redirects of a configuration share an endpoint.
pub fn opening_is_sound()
    ensures { OpeningIsSound }
{}

/// Law: a step at one address depends only on the bindings of that address. A purge does not change
/// the result of a later purge.
pub fn steps_are_local()
    ensures purge { PurgeIsLocal }
    ensures later { LaterPurgeCounts }
    ensures outbound { OutboundIsLocal }
    ensures outbound_others { OutboundLeavesOthers }
    ensures inbound { InboundIsLocal }
    ensures inbound_others { InboundLeavesOthers }
{}

/// Law: each binding after a step is live, or its number is held (RFC 6888, REQ-8).
pub fn steps_leave_taken()
    ensures outbound { OutboundLeavesTaken }
    ensures inbound { InboundLeavesTaken }
{}

/// Law: no step makes two bindings share an endpoint (RFC 4787, REQ-1 and REQ-3).
pub fn steps_stay_sound()
    ensures purge { PurgeStaysSound }
    ensures outbound { OutboundStaysSound }
    ensures inbound { InboundStaysSound }
    ensures apart { SoundListsAreApart }
{}

/// Law: after no step does an inside host exceed its quota of bindings (RFC 6888, REQ-4).
pub fn no_host_exceeds_its_quota()
    ensures purge { PurgeKeepsQuota }
    ensures outbound { OutboundKeepsQuota }
    ensures inbound { InboundKeepsQuota }
{}

/// Law: the rows of a list are those of its bindings, sorted.
pub fn rows_are_in_order()
    ensures { RowsAreInOrder }
{}

/// Law: a number is assigned to another inside endpoint only if its last binding ended at least the
/// hold before (RFC 6888, REQ-8); `AreBindingsAccounted` of all bindings made is an invariant.
pub fn steps_hold_numbers()
    ensures begin { AccountsBegin }
    ensures outbound { OutKeepsAccounts }
    ensures inbound { InKeepsAccounts }
    ensures far { HeldTimesAreFar }
{}
