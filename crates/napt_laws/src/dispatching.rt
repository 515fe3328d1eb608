//! Laws of runs on which a dispatcher relies.

ghost use Rattle.napt_laws.specs.Dispatching.{RightAnswersAreTheRuns, RunsGrow, AnswersGiveOutcomes, OnwardIsForeseen};
ghost use Rattle.napt_laws.specs.SecondLegs.{AnswersFillPlaces, PlacesStandForLegs};

use napt_wire::packets_keep_their_way;

/// Law: if translators get the legs of a run and answer correctly, the answers are the run's.
pub fn right_answers()
    ensures right { RightAnswersAreTheRuns }
    ensures grow { RunsGrow }
    ensures told { AnswersGiveOutcomes }
    ensures foretold { OnwardIsForeseen }
{
    packets_keep_their_way();
}

/// Law: an input from inside may have a second leg, which a placeholder replaces until the end of
/// the first leg determines whether there is one (RFC 4787, REQ-9).
pub fn places_stand_for_legs()
    ensures fill { AnswersFillPlaces }
    ensures stand { PlacesStandForLegs }
{
    right_answers();
}
