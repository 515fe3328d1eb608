//! A law of saved logs.

ghost use Rattle.napt_attribution.specs.LogLaws as laws;

use napt_account::parts_are_the_log;

/// Law: the rows of a run's log give its entries, in the order of making, each with its end.
/// The holders that a request finds among the entries in
/// [`SavedRows`](crate::saved_rows::SavedRows) are those that it finds in the log of the run.
pub fn saved_logs_name_the_holders()
    ensures tell { laws.RowsDetermineTheLog }
    ensures name { laws.RowsNameTheHolders }
{
    parts_are_the_log();
}
