//! What the routines make of their operands.

ghost use Rattle.c_routines.specs.Cuts.{LinkedCodeStands};
ghost use Rattle.c_routines.specs.Laws.{BothLands, DecimalLands, DivideLands, LeftLands, NumeralLands, ProductLands, RightLands, SignedDivideLands, SignedRightLands, SomeLands, TextLands};
ghost use Rattle.c_routines.specs.Parts.{PartsStand};
ghost use Rattle.c_routines.specs.Routines.{RoutinesRise, RoutinesServe};

/// Unsigned division by a word other than 0 leaves the remainder in A and the quotient in C.
pub fn divide_lands()
    ensures { DivideLands }
{}

/// The product of two words is left in A.
pub fn product_lands()
    ensures { ProductLands }
{}

/// Signed division uses the block that divides.
pub fn signed_divide_lands()
    ensures { SignedDivideLands }
{}

/// The bits that two words both have are left in A.
pub fn both_lands()
    ensures { BothLands }
{}

/// A word that is shifted to the left is left in A.
pub fn left_lands()
    ensures { LeftLands }
{}

/// The bits that at least one word has, or only one, are left in A.
pub fn some_lands()
    ensures { SomeLands }
{}

/// A word that is shifted to the right without sign is left in A.
pub fn right_lands()
    ensures { RightLands }
{}

/// A word that is shifted to the right with its sign is left in A.
pub fn signed_right_lands()
    ensures { SignedRightLands }
{}

/// The digits of a word are written.
pub fn numeral_lands()
    ensures { NumeralLands }
{}

/// The digits of a signed word are written.
pub fn decimal_lands()
    ensures { DecimalLands }
{}

/// The bytes of a text are written.
pub fn text_lands()
    ensures { TextLands }
{}

/// Code whose labels rise stands in the program that it is linked to.
pub fn linked_code_stands()
    ensures { LinkedCodeStands }
{}

/// Each part of code that stands does stand.
pub fn parts_stand()
    ensures { PartsStand }
{}

/// The routines that are needed serve wherever they stand.
pub fn routines_serve()
    ensures { RoutinesServe }
{}

/// The labels of the routines rise strictly, from the first one on.
pub fn routines_rise()
    ensures { RoutinesRise }
{}
