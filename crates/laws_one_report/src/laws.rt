//! Laws of suites and reports, each a call that does nothing.

ghost use Rattle.laws_one_report.specs.Causes.{FaultsHaveCauses, BuildFaultsHaveCauses};
ghost use Rattle.laws_one_report.specs.Laws.{ReportsAreOne, ReportsAreNotRefused};
ghost use Rattle.laws_one_report.specs.Suites.{SuitesAreOne};

/// Any two suites that a text may be said to say over one scope say the same.
pub fn suites_law()
    ensures { SuitesAreOne }
{}

/// The bytes of a dump and the bytes of a text have at most one report.
pub fn report_law()
    ensures { ReportsAreOne }
{}

/// A text that has a report over a dump is refused by nothing but want of memory.
pub fn refusal_law()
    ensures { ReportsAreNotRefused }
{}

/// Where a text isn't compiled, the cause stands of one of its assertions, and where a build has no
/// program, of one of the name. The cause of K1 to K4 is one of the text: many booleans, an
/// assertion that isn't small, many signals and counters that are read, or a long name or path.
pub fn cause_law()
    ensures check { FaultsHaveCauses }
    ensures build { BuildFaultsHaveCauses }
{
    compiler::small_law();
    compiler_laws::small_law();
}
