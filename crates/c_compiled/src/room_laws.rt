//! Lowering a program of C never finds too little room.

ghost use Rattle.c_compiled.specs.Suffices.{ProgramsAreSmall, RoomSuffices};
ghost use Rattle.c_compiled.specs.Sizes.{SizesFitCosts};
ghost use Rattle.c_compiled.specs.RoomLaws.{CostsFitRooms};
ghost use Rattle.c_compiled.specs.Words.{WordsStayFew};
ghost use Rattle.c_compiled.specs.HelperCostsLaws.{BodiesCallByKinds, HelpersFit, KeptHelpersFit, KindsPay};

/// The size of what a program is lowered to is at most the program's room.
pub fn room_suffices()
    ensures { RoomSuffices }
{}

/// So it is below the largest size that a program may have.
pub fn programs_are_small()
    ensures { ProgramsAreSmall }
{}

/// At most what the functions of the text cost, and 8 for each word of its objects with first values and of its string literals.
pub fn sizes_fit_costs()
    ensures { SizesFitCosts }
{}

/// It is at most the room of the program.
pub fn costs_fit_rooms()
    ensures { CostsFitRooms }
{}

/// A typed body has no more of them with fewer operators, also where the formats that it names are counted.
pub fn words_stay_few()
    ensures { WordsStayFew }
{}

/// The helper functions of the kinds of operators that occur in a text cost at most 2048 for each kind.
pub fn kinds_pay()
    ensures { KindsPay }
{}

/// A body calls those of kinds that occur in it.
pub fn bodies_call_by_kinds()
    ensures { BodiesCallByKinds }
{}

/// A program keeps no others.
pub fn kept_helpers_fit()
    ensures { KeptHelpersFit }
{}

/// So they fit their room as externals in front of a text.
pub fn helpers_fit()
    ensures { HelpersFit }
{}
