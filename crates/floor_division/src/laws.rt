// What follows from the definitions alone.
ghost use Rattle.floor_division.specs.Floored.{QuotientsAreFloored};

/// Quotients are rounded down: what is left beside one lies between 0 and the divisor.
pub fn quotients_are_floored()
    ensures { QuotientsAreFloored }
{}
