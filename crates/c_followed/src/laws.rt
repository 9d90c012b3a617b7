//! What holds of the functions and of the program of a text.

ghost use Rattle.c_followed.specs.Followed.{TextsAreFollowed};
ghost use Rattle.c_followed.specs.Bodies.{BodiesLand};
ghost use Rattle.c_followed.specs.Framed.{TextCallsLand};
ghost use Rattle.c_followed.specs.Used.{PlainUsesLand};
ghost use Rattle.c_followed.specs.Printed.{PrinterUsesLand};
ghost use Rattle.c_followed.specs.Spelled.{SpellersLand};
ghost use Rattle.c_followed.specs.Lowered.{TextsAreLowered};
ghost use Rattle.c_followed.specs.Breaks.{BreaksStay};
ghost use Rattle.c_followed.specs.Typed.{TypedBodiesBreakInside, TypedTextsBreakInside};

/// Where the functions of a text stand in a program, and uses of helper functions land, the program shows what the text means: no earlier than units are spent, and within so many steps for each unit.
pub fn texts_are_followed()
    ensures { TextsAreFollowed }
{}

/// Where calls land, a function's code follows its run in a frame in which its arguments stand, and comes to the block to return to with its value in A.
pub fn bodies_land()
    ensures { BodiesLand }
{}

/// Where uses of helper functions land, and each function of a text stands where its entry says, calls of functions land however deep.
pub fn text_calls_land()
    ensures { TextCallsLand }
{}

/// A use of a helper function that calls helper functions alone lands: its second fuel pays for what it runs, and its objects go away.
pub fn plain_uses_land()
    ensures { PlainUsesLand }
{}

/// A use of the function of a format or of `puts` lands, where calls of those that it calls do: the unit of its call pays for its pieces, each with a second fuel of its own.
pub fn printer_uses_land()
    ensures { PrinterUsesLand }
{}

/// A call of a function that writes a string lands in a use: the unit of each turn pays for its character, with which the second fuel begins anew.
pub fn spellers_land()
    ensures { SpellersLand }
{}

/// The program to which a text is lowered shows what the text means, at each fuel and each input.
pub fn texts_are_lowered()
    ensures { TextsAreLowered }
{}

/// A statement whose `break` and `continue` stand in loops and `switch`es ends where it ends, or returns.
pub fn breaks_stay()
    ensures { BreaksStay }
{}

/// In a typed statement `break` and `continue` leave a loop or a `switch` in it, or what stands around it.
pub fn typed_texts_break_inside()
    ensures { TypedTextsBreakInside }
{}

/// So it is with the statements of a typed body.
pub fn typed_bodies_break_inside()
    ensures { TypedBodiesBreakInside }
{}
