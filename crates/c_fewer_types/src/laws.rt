//! What an expression and a statement with fewer operators are.

ghost use Rattle.c_fewer_types.specs.Laws.{TypesAreKept};
ghost use Rattle.c_fewer_types.specs.FewerLaws.{LiteralsAreKept};
ghost use Rattle.c_fewer_types.specs.FewerTypedLaws.{StatementsStayTyped};
ghost use Rattle.c_fewer_types.specs.FewerLiteralsLaws.{StatementsKeepLiterals};
ghost use Rattle.c_fewer_types.specs.TypeTreesLaws.{FewerTypesAreTheSame, OperandsCanBeWritten, TypesAreWrittenBack, TypesCanBeWritten};
ghost use Rattle.c_fewer_types.specs.AsGood.{RulesTakeAsGood};

/// It is of the type that it had.
pub fn types_are_kept()
    ensures { TypesAreKept }
{}

/// It has the string literals that it had.
pub fn literals_are_kept()
    ensures { LiteralsAreKept }
{}

/// A statement does, and the scope behind it stands for the one that it was.
pub fn statements_stay_typed()
    ensures { StatementsStayTyped }
{}

/// It has the string literals that it had, so each keeps its number.
pub fn statements_keep_literals()
    ensures { StatementsKeepLiterals }
{}

/// The tree of a type that can be written says that type.
pub fn types_are_written_back()
    ensures { TypesAreWrittenBack }
{}

/// A type that is written can be written again.
pub fn types_can_be_written()
    ensures { TypesCanBeWritten }
{}

/// So can the type of an expression, but for that of `NULL`.
pub fn operands_can_be_written()
    ensures { OperandsCanBeWritten }
{}

/// A type whose lengths became numbers is the type that it was.
pub fn fewer_types_are_the_same()
    ensures { FewerTypesAreTheSame }
{}

/// Where an operator takes operands, it takes those that are as good, and gives what is as good.
pub fn rules_take_as_good()
    ensures { RulesTakeAsGood }
{}
