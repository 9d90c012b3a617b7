//! What trees with fewer operators do.

ghost use Rattle.c_fewer_meaning.specs.Laws.{ExpressionsAreKept};
ghost use Rattle.c_fewer_meaning.specs.FewerStatementsLaws.{StatementsAreKept};
ghost use Rattle.c_fewer_meaning.specs.FewerBodiesLaws.{BodiesAreKept, TreesAreTheSame};

/// It does what the expression does, as a value and as a place.
pub fn expressions_are_kept()
    ensures { ExpressionsAreKept }
{}

/// It does what the statement does, and its flow leaves it so.
pub fn statements_are_kept()
    ensures { StatementsAreKept }
{}

/// A typed statement has the same tree with fewer operators whatever block declared its names.
pub fn trees_are_the_same()
    ensures { TreesAreTheSame }
{}

/// A run of the function whose body has fewer operators does what a run of the function does.
pub fn bodies_are_kept()
    ensures { BodiesAreKept }
{}
