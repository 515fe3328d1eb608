//! Laws of merging two captures.
ghost use Rattle.napt_records.specs.MergeLaws.{CapturesCanBeCut, MergeEnds, MergeIsInOrder, MergeMeets, MergesBefore, MergesFront, MergesWhole, ReportsInsideFirst};

/// Law: in the merged list, the records of each side keep their order. An inside input comes before
/// an outside one if and only if the latest inside time up to the inside input is at most the
/// latest outside time up to the outside one. The clock of each input is the latest time so far.
pub fn merge_is_in_order()
    ensures { MergeIsInOrder }
{}

/// Law: merging returns a prefix of the merged list, and the whole list if there is no fault. A
/// fault of merging is the fault of the capture of one side, and is returned after the shortest
/// prefix that has all records of that side. If both captures have a fault next, the fault of the
/// inside capture is returned.
pub fn merge_until_fault()
    ensures front { MergesFront }
    ensures whole { MergesWhole }
    ensures ends { MergeEnds }
    ensures meets { MergeMeets }
    ensures before { MergesBefore }
    ensures inside_first { ReportsInsideFirst }
{}

/// Law: both captures can be cut after each prefix of the merged list. Merging the first parts
/// gives that prefix, and merging the rest gives the other inputs, where earlier clocks are raised
/// to the last clock of the prefix.
pub fn captures_can_be_cut()
    ensures { CapturesCanBeCut }
{}
