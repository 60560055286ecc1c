//! What the definitions of reports say together, as the contracts of functions that do nothing.
#![tactic(auto)]

ghost use Rattle.dc_report.specs.Laws.{LinesSpellEntries};

/// The law of the grammar, for those who build on the definitions. The call does nothing.
///
/// A line spells an entry exactly where each name of the entry may stand in a report, its paths are within the limits,
/// the root is modified alone, and the line is the one that the entry is written as.
pub fn report_laws()
    ensures { LinesSpellEntries }
{}
