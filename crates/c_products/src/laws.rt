//! Helper functions are the operators for which they stand.

ghost use Rattle.c_products.specs.Laws.{IntQuotientsAreComputed, IntRemaindersAreComputed, ProductsAreComputed, UnsignedQuotientsAreComputed, UnsignedRemaindersAreComputed};
ghost use Rattle.c_products.specs.MovesLaws.{DifferencesAreComputed, PointersAreMoved, StepsAreTaken, SumsAreComputed, SwappedSumsAreComputed};
ghost use Rattle.c_products.specs.BitsLaws.{BitsAndIsComputed, BitsOrIsComputed, BitsXorIsComputed, ComplementsAreComputed, IntShiftsRightAreComputed, ShiftsLeftAreComputed, UnsignedShiftsRightAreComputed};
ghost use Rattle.c_products.specs.CompoundsLaws.{BitsAndIsAssigned, BitsOrIsAssigned, BitsXorIsAssigned, IntQuotientsAreAssigned, IntRemaindersAreAssigned, IntShiftsRightAreAssigned, ProductsAreAssigned, ShiftsLeftAreAssigned, UnsignedQuotientsAreAssigned, UnsignedRemaindersAreAssigned, UnsignedShiftsRightAreAssigned};

/// A call of the function of products does what `*` does, on all values.
pub fn products_are_computed()
    ensures { ProductsAreComputed }
{}

/// A call of the function of quotients without sign does what `/` does on unsigned numbers.
pub fn unsigned_quotients_are_computed()
    ensures { UnsignedQuotientsAreComputed }
{}

/// A call of the function of quotients of ints does what `/` does on ints.
pub fn int_quotients_are_computed()
    ensures { IntQuotientsAreComputed }
{}

/// A call of the function of what is left without sign does what `%` does on unsigned numbers.
pub fn unsigned_remainders_are_computed()
    ensures { UnsignedRemaindersAreComputed }
{}

/// A call of the function of what is left of ints does what `%` does on ints.
pub fn int_remainders_are_computed()
    ensures { IntRemaindersAreComputed }
{}

/// A call of the function of sums moves a pointer by a number of wide elements.
pub fn sums_are_computed()
    ensures { SumsAreComputed }
{}

/// So does a call of that with the number before the pointer.
pub fn swapped_sums_are_computed()
    ensures { SwappedSumsAreComputed }
{}

/// A call of the function of compound sums moves the pointer at a place.
pub fn pointers_are_moved()
    ensures { PointersAreMoved }
{}

/// A call of the function of steps moves it by an element, and gives it as it was.
pub fn steps_are_taken()
    ensures { StepsAreTaken }
{}

/// A call of the function of differences gives the elements between two pointers.
pub fn differences_are_computed()
    ensures { DifferencesAreComputed }
{}

/// A call of the function of `&` does what the operator does, on all values.
pub fn bits_and_is_computed()
    ensures { BitsAndIsComputed }
{}

/// A call of the function of `|` does what the operator does.
pub fn bits_or_is_computed()
    ensures { BitsOrIsComputed }
{}

/// A call of the function of `^` does what the operator does.
pub fn bits_xor_is_computed()
    ensures { BitsXorIsComputed }
{}

/// A call of the function of `<<` does what the operator does.
pub fn shifts_left_are_computed()
    ensures { ShiftsLeftAreComputed }
{}

/// A call of the function of `>>` on unsigned numbers does what the operator does.
pub fn unsigned_shifts_right_are_computed()
    ensures { UnsignedShiftsRightAreComputed }
{}

/// A call of the function of `>>` on ints does what the operator does.
pub fn int_shifts_right_are_computed()
    ensures { IntShiftsRightAreComputed }
{}

/// A call of the function of `~` does what the operator does.
pub fn complements_are_computed()
    ensures { ComplementsAreComputed }
{}

/// A call of the function of `*=` does what the assignment does.
pub fn products_are_assigned()
    ensures { ProductsAreAssigned }
{}

/// A call of the function of `/=` that counts as unsigned does what the assignment does.
pub fn unsigned_quotients_are_assigned()
    ensures { UnsignedQuotientsAreAssigned }
{}

/// A call of the function of `/=` on ints does what the assignment does.
pub fn int_quotients_are_assigned()
    ensures { IntQuotientsAreAssigned }
{}

/// A call of the function of `%=` that counts as unsigned does what the assignment does.
pub fn unsigned_remainders_are_assigned()
    ensures { UnsignedRemaindersAreAssigned }
{}

/// A call of the function of `%=` on ints does what the assignment does.
pub fn int_remainders_are_assigned()
    ensures { IntRemaindersAreAssigned }
{}

/// A call of the function of `&=` does what the assignment does.
pub fn bits_and_is_assigned()
    ensures { BitsAndIsAssigned }
{}

/// A call of the function of `|=` does what the assignment does.
pub fn bits_or_is_assigned()
    ensures { BitsOrIsAssigned }
{}

/// A call of the function of `^=` does what the assignment does.
pub fn bits_xor_is_assigned()
    ensures { BitsXorIsAssigned }
{}

/// A call of the function of `<<=` does what the assignment does.
pub fn shifts_left_are_assigned()
    ensures { ShiftsLeftAreAssigned }
{}

/// A call of the function of `>>=` on unsigned numbers does what the assignment does.
pub fn unsigned_shifts_right_are_assigned()
    ensures { UnsignedShiftsRightAreAssigned }
{}

/// A call of the function of `>>=` on ints does what the assignment does.
pub fn int_shifts_right_are_assigned()
    ensures { IntShiftsRightAreAssigned }
{}
