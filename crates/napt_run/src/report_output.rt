//! The report of a run.
ghost use Rattle.std.specs.Prelude.{◌≡◌, ◌+◌, List, IfErr, OnOk};
ghost use Rattle.napt_rules.specs.declared.Outcome.{Outcome};
ghost use Rattle.napt_records.specs.{Counts.AreCountsOf, Report.report_of};
ghost use Rattle.napt_run.specs.{Captures.failed_writings, Streams.{GetsReport, IsReportFault}};

use crate::capture_run::ReportData;
use napt_capture::{Sink, write_text};
use napt_records::{Fault, Which, report_of};
use napt_sequential::RunFault;
use std::alloc::Global;

/// Writes the report, and flushes it.
pub(crate) fn write_report<U: Sink>(
    alloc: Global,
    output: &mut U,
    totals: &ReportData,
) -> Result<(), Fault>
    ensures written { (outcomes : List Outcome) → AreCountsOf outcomes totals.now.counts →
        GetsReport (report_of totals.now.cuts.inside totals.now.cuts.outside outcomes
        totals.now.summary.bindings.items) result (U.contents output.old) (U.contents output.new) }
    ensures fault { IfErr result IsReportFault }
    ensures flushed { OnOk result (U.is_flushed output.new) }
    ensures count { U.failed output.new ≡ U.failed output.old
        + failed_writings Which.Report result }
{
    let ReportData {
        counts,
        summary,
        cuts,
    } = totals;
    let Ok(text) = report_of(alloc, counts, &summary.bindings, cuts.inside, cuts.outside) else {
        return Err(Fault::Run(RunFault::Memory));
    };
    match write_text(output, text.as_bytes()) {
        Ok(()) => Ok(()),
        Err(fault) => Err(Fault::Write(Which::Report, fault)),
    }
}
