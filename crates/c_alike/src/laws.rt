//! What a tree is depends on its own names and on the tags alone.

ghost use Rattle.c_alike.specs.Laws.{DeclarationsKeepScopesAlike, ExpressionsAreJudgedAlike, TypesAreJudgedAlike};

/// Scopes that are alike for the names of an expression judge it alike.
pub fn expressions_are_judged_alike()
    ensures { ExpressionsAreJudgedAlike }
{}

/// So they do a type that is written.
pub fn types_are_judged_alike()
    ensures { TypesAreJudgedAlike }
{}

/// Behind a declaration they are still alike.
pub fn declarations_keep_scopes_alike()
    ensures { DeclarationsKeepScopesAlike }
{}
