//! What holds of the definitions.

ghost use Rattle.c_prep.specs.Laws.{HiddenNamesStay, KeptNamesAreReplaced, AgreesWithLex, DepthIsEnough};

/// A hidden name stays.
pub fn hidden_names_stay()
    ensures { HiddenNamesStay }
{}

/// A kept name stands for what its tokens stand for with that name hidden, all at the name's place.
pub fn kept_names_are_replaced()
    ensures { KeptNamesAreReplaced }
{}

/// Where `lex` gives tokens, `prepare` gives the same, unless more than 1,000,000 stand before the end.
pub fn agrees_with_lex()
    ensures { AgreesWithLex }
{}

/// The depth to which names are expanded in one another doesn't matter: it is never reached.
pub fn depth_is_enough()
    ensures { DepthIsEnough }
{}
