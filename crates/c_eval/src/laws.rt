//! What follows from the definitions alone.

ghost use Rattle.c_eval.specs.Laws.{MoreFuelExtends, EndedStays, UndefinedStays, TakenBytesDecide, GoingIsOutOfFuel, ActsAreNumbered};

/// A run at more fuel extends a run at less: its output and its taken bytes only grow, and what was settled stays.
pub fn more_fuel_extends()
    ensures { MoreFuelExtends }
{}

/// A run that has ended is the same at more fuel.
pub fn ended_stays()
    ensures { EndedStays }
{}

/// A run that came to an undefined act is the same at more fuel.
pub fn undefined_stays()
    ensures { UndefinedStays }
{}

/// A run never depends on input past what it has taken.
pub fn taken_bytes_decide()
    ensures { TakenBytesDecide }
{}

/// A run is still going only where its fuel is used up.
pub fn going_is_out_of_fuel()
    ensures { GoingIsOutOfFuel }
{}

/// A text that a programmer wrote comes to the undefined acts 1 to 12 alone.
pub fn acts_are_numbered()
    ensures { ActsAreNumbered }
{}
