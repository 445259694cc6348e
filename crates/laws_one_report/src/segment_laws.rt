//! Laws of reports over dumps in segments.

ghost use Rattle.laws_one_report.specs.SegmentLaws.{SuitesByVariables, FaultsByVariables};
ghost use Rattle.laws_one_report.specs.SegmentLaws.{SegmentsReport, KeptReport};

use vcd_segments::{join_law, kept_law};

/// What a text says over a dump, and its faults there, are the same over any dump with the same
/// variables.
pub fn front_law()
    ensures says { SuitesByVariables }
    ensures refused { FaultsByVariables }
{}

/// The report on a text is that over the rows of a dump's segments, and that over what is kept of
/// the dump.
pub fn segments_law()
    ensures segments { SegmentsReport }
    ensures kept { KeptReport }
{
    join_law();
    kept_law();
}
