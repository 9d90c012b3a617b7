// What holds of the definitions.

ghost use Rattle.bf_ops.specs.Laws.{SetWordsAreKept, ComparisonsAreJudged};
ghost use Rattle.bf_ops.specs.OpsCode.{OperationsAreShort};
ghost use Rattle.bf_ops.specs.Perform.{OperationsAreEirs};

/// A tape that has the registers and the memory of a program has them after a register's word or a word of memory was set,
/// with that register or that word of memory set.
pub fn set_words_are_kept()
    ensures { SetWordsAreKept }
{}

/// A comparison holds where the one that is told for it says so, or where it says not.
pub fn comparisons_are_judged()
    ensures { ComparisonsAreJudged }
{}

/// What is said of an operation that goes on to the next one is what EIR's rule makes of it.
pub fn operations_are_eirs()
    ensures { OperationsAreEirs }
{}

/// An operation's commands are few enough for a program of 2^14 of them.
pub fn operations_are_short()
    ensures { OperationsAreShort }
{}
