//! The report counts the packets by outcome, names cut captures and lists the bindings.
ghost use Rattle.std.specs.Prelude.{◌≡◌, ◌-◌, ◌^◌, ◌<◌, ◌++◌, ◌∷◌, [], List, IfOk, OnOk, codes, count_by, flat_map, length, slice_index, string_bytes};
ghost use Rattle.napt_rules.specs.declared.Outcome.{Outcome};
ghost use Rattle.napt_records.specs.Counts.{AreCountsOf, cause_place};
ghost use Rattle.napt_records.specs.Report as model;

use crate::names::{EndpointText, cause_name, protocol_name};
use napt_sequential::{Outcome, Run};
use napt_table::Row;
use napt_wire::Cause;
use std::alloc::{AllocError, Global};

/// The number of inputs, and the number with each outcome.
#[derive(Clone, Copy)]
pub struct OutcomeCounts {
    packets: u64,
    to_outside: u64,
    to_inside: u64,
    /// The number of packets dropped for each cause, in the order in which `Cause` declares them.
    dropped: [u64; 14],
}

impl OutcomeCounts {
    /// Returns the counts of no inputs.
    pub fn new() -> OutcomeCounts
        ensures { AreCountsOf [] result }
    {
        OutcomeCounts {
            packets: 0,
            to_outside: 0,
            to_inside: 0,
            dropped: [0; 14],
        }
    }

    /// Returns the number of inputs.
    pub fn packets(&self) -> u64
        ensures { (outcomes : List Outcome) → AreCountsOf outcomes self.now →
            result ≡ length outcomes }
    {
        self.packets
    }

    /// Returns the number of packets that went to the outside.
    pub fn to_outside(&self) -> u64
        ensures { (outcomes : List Outcome) → AreCountsOf outcomes self.now →
            result ≡ count_by model.is_to_outside outcomes }
    {
        self.to_outside
    }

    /// Returns the number of packets that went to the inside.
    pub fn to_inside(&self) -> u64
        ensures { (outcomes : List Outcome) → AreCountsOf outcomes self.now →
            result ≡ count_by model.is_to_inside outcomes }
    {
        self.to_inside
    }

    /// Returns the number of packets that were dropped for this cause.
    pub fn dropped(&self, cause: Cause) -> u64
        ensures { (outcomes : List Outcome) → AreCountsOf outcomes self.now →
            result ≡ count_by (model.is_dropped cause) outcomes }
    {
        self.dropped[cause as usize]
    }

    /// Counts one more input by its outcome. Each count saturates at 2^64 - 1.
    pub fn count(&mut self, outcome: &Outcome)
        ensures { (outcomes : List Outcome) → length outcomes < 2 ^ 64 - 1 →
            AreCountsOf outcomes self.old → AreCountsOf (outcomes ++ outcome.now ∷ []) self.new }
    {
        self.packets = self.packets.saturating_add(1);
        match outcome {
            Outcome::ToOutside(_) => self.to_outside = self.to_outside.saturating_add(1),
            Outcome::ToInside(_) => self.to_inside = self.to_inside.saturating_add(1),
            Outcome::Dropped(cause) => {
                let dropped = &mut self.dropped[*cause as usize];
                *dropped = dropped.saturating_add(1);
            }
        }
    }
}

fn counts_of(outcomes: &[Outcome]) -> OutcomeCounts
    ensures { AreCountsOf outcomes.now result }
{
    let mut counts = OutcomeCounts::new();
    for outcome in outcomes {
        counts.count(outcome);
    }
    counts
}

/// Appends a line with a name and a count.
fn push_count(alloc: Global, report: &mut String, name: &str, count: u64) -> Result<(), AllocError>
    ensures { OnOk result (string_bytes report.new ≡ string_bytes report.old
        ++ model.count_line name.now count) }
{
    let line = format!(in alloc; "{name} {count}\n")?;
    report.push_str(&line)
}

/// Appends a line for each cause with the number of packets that were dropped for it.
fn push_drops(
    alloc: Global,
    report: &mut String,
    causes: &[Cause],
    dropped: &[u64; 14],
) -> Result<(), AllocError>
    ensures { OnOk result (string_bytes report.new ≡ string_bytes report.old ++ flat_map (λ cause.
        codes "drop " ++ model.count_line (model.cause_name cause)
        (slice_index dropped.now (cause_place cause))) causes.now) }
{
    for cause in causes {
        report.push_str("drop ")?;
        push_count(alloc, report, cause_name(*cause), dropped[*cause as usize])?;
    }
    Ok(())
}

/// Appends the line of a binding.
fn push_row(alloc: Global, report: &mut String, row: Row) -> Result<(), AllocError>
    ensures { OnOk result (string_bytes report.new ≡ string_bytes report.old
        ++ model.row_line row) }
{
    let protocol = protocol_name(row.protocol);
    let inside = EndpointText(row.inside);
    let external = EndpointText(row.external);
    let fixed = if row.fixed { " fixed" } else { "" };
    let line = format!(in alloc; "{protocol} {inside} {external}{fixed}\n")?;
    report.push_str(&line)
}

/// Appends the lines of the bindings.
fn push_rows(alloc: Global, report: &mut String, rows: &[Row]) -> Result<(), AllocError>
    ensures { OnOk result (string_bytes report.new ≡ string_bytes report.old
        ++ flat_map model.row_line rows.now) }
{
    for row in rows {
        push_row(alloc, report, *row)?;
    }
    Ok(())
}

/// Appends the lines that count the packets.
fn push_counts(alloc: Global, report: &mut String, counts: &OutcomeCounts) -> Result<(), AllocError>
    ensures { (outcomes : List Outcome) → AreCountsOf outcomes counts.now → OnOk result
        (string_bytes report.new ≡ string_bytes report.old ++ model.counts_text outcomes) }
{
    push_count(alloc, report, "packets", counts.packets)?;
    push_count(alloc, report, "to outside", counts.to_outside)?;
    push_count(alloc, report, "to inside", counts.to_inside)?;
    push_drops(alloc, report, &Cause::ALL, &counts.dropped)?;
    Ok(())
}

/// Appends a line for each capture that ends inside a record.
fn push_cuts(report: &mut String, cut_inside: bool, cut_outside: bool) -> Result<(), AllocError>
    ensures { OnOk result (string_bytes report.new ≡ string_bytes report.old
        ++ model.cuts_text cut_inside cut_outside) }
{
    if cut_inside {
        report.push_str("cut inside\n")?;
    }
    if cut_outside {
        report.push_str("cut outside\n")?;
    }
    Ok(())
}

/// Returns the report: the number of packets, the numbers with each outcome, a line for each
/// capture that ends inside a record, and the bindings.
///
/// Each line ends with a line feed. A binding is printed as `udp 10.0.0.2:5000 203.0.113.1:5000`,
/// followed by ` fixed` if it is a redirect. Fails only if memory is refused.
pub fn report_of(
    alloc: Global,
    counts: &OutcomeCounts,
    bindings: &[Row],
    cut_inside: bool,
    cut_outside: bool,
) -> Result<String, AllocError>
    ensures { (outcomes : List Outcome) → AreCountsOf outcomes counts.now →
        IfOk result (λ report. string_bytes report
        ≡ model.report_of cut_inside cut_outside outcomes bindings.now) }
{
    let mut report = String::new(alloc);
    push_counts(alloc, &mut report, counts)?;
    push_cuts(&mut report, cut_inside, cut_outside)?;
    push_rows(alloc, &mut report, bindings)?;
    Ok(report)
}

/// Returns the report of a run, by [`report_of`]. Fails only if memory is refused.
#[tactic(auto, unfolding(crate::specs::Report::report_text))]
pub fn report_text(
    alloc: Global,
    run: &Run,
    cut_inside: bool,
    cut_outside: bool,
) -> Result<String, AllocError>
    ensures { IfOk result (λ report. string_bytes report
        ≡ model.report_text cut_inside cut_outside run.now) }
{
    let counts = counts_of(&run.outcomes);
    report_of(alloc, &counts, &run.bindings, cut_inside, cut_outside)
}
