//! Laws of runs over captures: their outputs depend only on the bytes of the captures.
ghost use Rattle.napt_run.specs.StreamLaws.{OutputsAreTheSame, ReportsAreTheSame};

/// Law: if `run_streams` and `run_captures` succeed under one configuration and over captures with
/// the same bytes, they write the same bytes to each output, and the same report. The outputs must
/// contain the same bytes before the run, on devices whose contents are known.
pub fn streams_write_the_same()
    ensures outputs { OutputsAreTheSame }
    ensures report { ReportsAreTheSame }
{}
