//! Runs over the parts of captures, one after another.
ghost use Rattle.napt_run.specs.JoinedTexts.{TextsJoin};

use napt_laws::{runs_go_on, saved_runs_go_on};

/// Law: captures can be cut in two. A run over the first parts, and a run over the rest from the
/// saved state of the first run, together write what a run over the whole captures writes: each
/// output capture is that of the first run, followed by the records in that of the second run. The
/// report is that of both runs together.
pub fn texts_join()
    ensures { TextsJoin }
{
    runs_go_on();
    saved_runs_go_on();
}
