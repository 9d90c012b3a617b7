//! Typed texts within the limits have no literal and no object that is too large.

ghost use Rattle.c_limited.specs.Laws.{TypedTextsAreLimited};
ghost use Rattle.c_limited.specs.NarrowLaws.{NarrowElementsAreSmall, OperandsAreNarrow};

/// The literals and objects of a typed text within the limits are within the limits of a run.
pub fn typed_texts_are_limited()
    ensures { TypedTextsAreLimited }
{}

/// An expression that writes no type that is too wide has none.
pub fn operands_are_narrow()
    ensures { OperandsAreNarrow }
{}

/// The elements of a pointer of such a type have fewer words than the least int below zero counts.
pub fn narrow_elements_are_small()
    ensures { NarrowElementsAreSmall }
{}
