// Laws of the definitions.

ghost use Rattle.bf_trail.specs.Store.{WordsAreStored};
ghost use Rattle.bf_trail.specs.Lay.{TrailsAreLaid};
ghost use Rattle.bf_trail.specs.Load.{BytesAreLoaded, WordsAreLoaded};
ghost use Rattle.bf_trail.specs.Trail.{TrailsAreWalked, MarksAreLaid};
ghost use Rattle.bf_trail.specs.Nest.{NestsLayTheirNumber};
ghost use Rattle.bf_trail.specs.Sides.{TrailsGrow, SidesAreReached, TrailsAreTakenUp};
ghost use Rattle.bf_trail.specs.Fetch.{TripsAreUnits};
ghost use Rattle.bf_trail.specs.Access.{WordsAreFetched, WordsAreBrought};

/// The scans lead from the trail's beginning to its end and back, with 9 commands a mark, and change nothing.
pub fn trails_are_walked()
    ensures { TrailsAreWalked }
{}

/// 4^j marks more stand after the trail's end.
pub fn marks_are_laid()
    ensures { MarksAreLaid }
{}

/// The nest of loops lays as many marks as the digits in the columns say.
pub fn nests_lay_their_number()
    ensures { NestsLayTheirNumber }
{}

/// A trip makes a trail longer by 4^j marks, and changes nothing else.
pub fn trails_grow()
    ensures { TrailsGrow }
{}

/// The ways to a half record and back leave everything as it is.
pub fn sides_are_reached()
    ensures { SidesAreReached }
{}

/// The last way home takes the marks and the side up.
pub fn trails_are_taken_up()
    ensures { TrailsAreTakenUp }
{}

/// Trips out and back give a far byte out, unit by unit, and keep it.
pub fn trips_are_units()
    ensures { TripsAreUnits }
{}

/// A byte of the half record goes to four digits of lane y, and stays.
pub fn bytes_are_loaded()
    ensures { BytesAreLoaded }
{}

/// A word of the half record goes to lane y, and the trail is taken up.
pub fn words_are_loaded()
    ensures { WordsAreLoaded }
{}

/// The word in lane y goes to the half record, lane y is 0, and the trail is taken up.
pub fn words_are_stored()
    ensures { WordsAreStored }
{}

/// The digits in lane x become a trail of as many marks, with the side beside its end.
pub fn trails_are_laid()
    ensures { TrailsAreLaid }
{}

/// From an address in lane x its word goes to lane y, on the whole tape.
pub fn words_are_fetched()
    ensures { WordsAreFetched }
{}

/// The word in lane y goes to the address in lane x, on the whole tape.
pub fn words_are_brought()
    ensures { WordsAreBrought }
{}
