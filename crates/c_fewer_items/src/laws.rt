//! The laws of externals with fewer operators.

ghost use Rattle.c_fewer_items.specs.Laws.{FilesStandAsScopes, FunctionsAreFound, ItemsStayTyped, ObjectsStayTheSame};
ghost use Rattle.c_fewer_items.specs.FewerHeadsLaws.{FirstsAreFound, FirstsAreKnown, FirstsAreTyped, HelpersAreTyped, OthersStay};
ghost use Rattle.c_fewer_items.specs.FewerLimitedLaws.{DefinitionsStayLimited};
ghost use Rattle.c_fewer_items.specs.FrontsLimitedLaws.{FrontsAreLimited};
ghost use Rattle.c_fewer_items.specs.FewerFrontsLaws.{DefinitionsAreJoined, FormatsAreDistinct, FormatsAreKnown, FrontsAreTyped, FrontsHaveNoObjects, FrontsHaveOwnNames, OthersAreKept};
ghost use Rattle.c_fewer_items.specs.FewerFormatsLaws.{FormatsAreDeclared, FormatsAreTyped};
ghost use Rattle.c_fewer_items.specs.FewerStartsLaws.{StartsStand};
ghost use Rattle.c_fewer_items.specs.SmallElementsLaws.{TypedTextsAreOrdinary};
ghost use Rattle.c_fewer_items.specs.FewerOrdinaryLaws.{ExpressionsAreOrdinary, StatementsAreOrdinary};

/// File scopes that stand for each other do so as the scopes of expressions do.
pub fn files_stand_as_scopes()
    ensures { FilesStandAsScopes }
{}

/// Typed externals are typed with fewer operators, and the functions that are kept stand for those that they were.
pub fn items_stay_typed()
    ensures { ItemsStayTyped }
{}

/// A function that is kept is found in both texts.
pub fn functions_are_found()
    ensures { FunctionsAreFound }
{}

/// The objects of file scope begin with the cells that they had.
pub fn objects_stay_the_same()
    ensures { ObjectsStayTheSame }
{}

/// A helper function is typed, and known behind it, where those are known that it calls.
pub fn helpers_are_typed()
    ensures { HelpersAreTyped }
{}

/// So all are in front of a text, if what is kept calls only what the text defines.
pub fn firsts_are_typed()
    ensures { FirstsAreTyped }
{}

/// Behind them each is known.
pub fn firsts_are_known()
    ensures { FirstsAreKnown }
{}

/// No other name gets another meaning.
pub fn others_stay()
    ensures { OthersStay }
{}

/// One that is kept is found among the functions of the text, and those are known outside its body that it calls.
pub fn firsts_are_found()
    ensures { FirstsAreFound }
{}

/// A function with fewer operators is within the limits where the one is that it was.
pub fn definitions_stay_limited()
    ensures { DefinitionsStayLimited }
{}

/// Helper functions in front of a text have no string literals, and their objects have a word each.
pub fn fronts_are_limited()
    ensures { FrontsAreLimited }
{}

/// All helper functions are typed in front of a text, if what is kept calls only what the text defines.
pub fn fronts_are_typed()
    ensures { FrontsAreTyped }
{}

/// The function of each format is known behind them.
pub fn formats_are_known()
    ensures { FormatsAreKnown }
{}

/// A name that is none of theirs has the meaning that it had.
pub fn others_are_kept()
    ensures { OthersAreKept }
{}

/// No format of a text stands twice.
pub fn formats_are_distinct()
    ensures { FormatsAreDistinct }
{}

/// The functions of externals behind others are theirs behind those of the others.
pub fn definitions_are_joined()
    ensures { DefinitionsAreJoined }
{}

/// Helper functions add no object.
pub fn fronts_have_no_objects()
    ensures { FrontsHaveNoObjects }
{}

/// A name that is none of theirs is found behind them.
pub fn fronts_have_own_names()
    ensures { FrontsHaveOwnNames }
{}

/// The function of a format that `printf` takes is typed, and known behind it, where those are known that it calls.
pub fn formats_are_typed()
    ensures { FormatsAreTyped }
{}

/// Declared alone it is known too.
pub fn formats_are_declared()
    ensures { FormatsAreDeclared }
{}

/// The file scope behind all helper functions stands for the one in which the text begins.
pub fn starts_stand()
    ensures { StartsStand }
{}

/// In the bodies of a typed text within the limits elements have fewer words than the least int below zero counts.
pub fn typed_texts_are_ordinary()
    ensures { TypedTextsAreOrdinary }
{}

/// In a scope of narrow types an expression that writes such types alone has small elements.
pub fn expressions_are_ordinary()
    ensures { ExpressionsAreOrdinary }
{}

/// So does a statement whose declarations have such types too.
pub fn statements_are_ordinary()
    ensures { StatementsAreOrdinary }
{}
