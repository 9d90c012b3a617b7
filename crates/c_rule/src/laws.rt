//! What holds of the rule.

ghost use Rattle.c_rule.specs.Laws.{RuleRunsCode, RuleMeansText, FaultsOfTextsAreSilent, TextsMoveByPieces, RunsBeginMeanings, ReadsBehindUnits};

/// So many steps of the rule come to what so many instructions come to.
pub fn rule_runs_code()
    ensures { RuleRunsCode }
{}

/// The run of the rule from a text's start comes to what the text means.
pub fn rule_means_text()
    ensures { RuleMeansText }
{}

/// Each run of the rule from a text's start has begun what the text means, and one that stands still has come to it.
pub fn runs_begin_meanings()
    ensures { RunsBeginMeanings }
{}

/// A step of a text's code that comes to a fault takes nothing and writes nothing.
pub fn faults_of_texts_are_silent()
    ensures { FaultsOfTextsAreSilent }
{}

/// Each step of a text's code takes a byte, writes one or the decimal text of a number, or does neither.
pub fn texts_move_by_pieces()
    ensures { TextsMoveByPieces }
{}

/// A byte is wanted only where a unit was just spent on it.
pub fn reads_behind_units()
    ensures { ReadsBehindUnits }
{}
