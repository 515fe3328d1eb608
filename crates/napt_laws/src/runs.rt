//! Laws of runs.

ghost use Rattle.napt_rules.specs.Prelude.{RunsGoOn, GoneBindingsChangeNothing, EarlierClocksAreTheStates, AlikeStatesGoOn, RunsAreSound, RunsStayApart, RunsKeepQuota, RunsKeepToBlocks};
ghost use Rattle.napt_rules.specs.Prelude.{OrderedStatesAreAlike, OrderedStatesAreTaken, SavedRunsGoOn};
ghost use Rattle.napt_rules.specs.Prelude.{TakenStatesAreSound, TakenStatesKeepToBlocks, TakenStatesKeepQuota, TakenStatesAreOwn, OwnStatesStay, OwnStatesAreTaken, TranslatorsAnswerFrom, TranslatorsKeepFrom, TranslatorsHoldFrom};

use crate::steps::{no_host_exceeds_its_quota, opening_is_sound, steps_stay_sound};
use napt_wire::packets_carry_numbers;

/// Law: a run over two lists of inputs is a run over the first list, followed by a run over the
/// second list from the state after the first run, or from a state that no packet can distinguish
/// from that state.
pub fn runs_go_on()
    ensures go_on { RunsGoOn }
    ensures gone { GoneBindingsChangeNothing }
    ensures clocks { EarlierClocksAreTheStates }
    ensures alike { AlikeStatesGoOn }
{
    packets_carry_numbers();
}

/// Law: after any inputs, no two bindings share an endpoint (RFC 4787, REQ-1 and REQ-3).
pub fn runs_are_sound()
    ensures sound { RunsAreSound }
    ensures apart { RunsStayApart }
{
    packets_carry_numbers();
    steps_stay_sound();
    opening_is_sound();
}

/// Law: after any inputs, no host has more bindings than the quota (RFC 6888, REQ-4).
pub fn runs_keep_the_quota()
    ensures { RunsKeepQuota }
{
    no_host_exceeds_its_quota();
}

/// Law: after any inputs, each binding except redirects has a number of its inside host's block, if
/// there is one (RFC 7422, section 2), so that the configuration determines the host of a number.
pub fn runs_keep_to_blocks()
    ensures { RunsKeepToBlocks }
{}

/// Law: the laws of runs that start with the redirects also hold of runs from each state that a
/// configuration accepts, except that a host may have more bindings than the quota there; it then
/// gets no further one. Each binding is that of an inside host, was not used after the clock, and
/// has at most one flow for each remote.
pub fn taken_states_are_kept()
    ensures sound { TakenStatesAreSound }
    ensures blocks { TakenStatesKeepToBlocks }
    ensures quota { TakenStatesKeepQuota }
    ensures own { TakenStatesAreOwn }
{
    packets_carry_numbers();
}

/// Law: a configuration accepts, without a change, each state after a run of its own.
pub fn own_states_stay()
    ensures stay { OwnStatesStay }
    ensures taken { OwnStatesAreTaken }
{
    packets_carry_numbers();
}

/// Law: if the state after a run is saved one address after another, the run's configuration
/// accepts it, and a run from it is the rest of the run over all inputs.
pub fn saved_runs_go_on()
    ensures alike { OrderedStatesAreAlike }
    ensures taken { OrderedStatesAreTaken }
    ensures go_on { SavedRunsGoOn }
{
    packets_carry_numbers();
}

/// Law: a translator of one external address, from each state, gives the answers of the sequential
/// translator there, and then has the same live and held bindings of that address.
pub fn translators_are_local()
    ensures answers { TranslatorsAnswerFrom }
    ensures keeps { TranslatorsKeepFrom }
    ensures holds { TranslatorsHoldFrom }
{}
