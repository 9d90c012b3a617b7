//! The laws of names.

ghost use Rattle.c_fewer_names.specs.Laws.{EvaluatedNamesAreAll, NamesComeFromBefore};
ghost use Rattle.c_fewer_names.specs.FewerKnownLaws.{FormatsHaveConversions, NamesAreKnown};
ghost use Rattle.c_fewer_names.specs.TextNamesLaws.{TypedBodiesNameText};
ghost use Rattle.c_fewer_names.specs.ProgramNamesLaws.{BodiesAreReached, FirstsStart, HelpersCallDefined, ItemsAreFit, MainIsReached, NamesPass};
ghost use Rattle.c_fewer_names.specs.DesugaredTypedLaws.{ProgramsStayTyped};
ghost use Rattle.c_fewer_names.specs.DesugaredUnitsLaws.{UnitsStayTyped};
ghost use Rattle.c_fewer_names.specs.ProgramBodiesLaws.{BodiesOfProgramsAreTyped, FormatsOfProgramsAreFormats, NamesOfProgramsAreKnown};
ghost use Rattle.c_fewer_names.specs.NamedObjectsLaws.{FileObjectsAreNamed};

/// What holds of the names that a body with fewer operators evaluates holds of all its names.
pub fn evaluated_names_are_all()
    ensures { EvaluatedNamesAreAll }
{}

/// What holds of those, and of the functions that are always known, holds of the names of the body as it was.
pub fn names_come_from_before()
    ensures { NamesComeFromBefore }
{}

/// A typed body evaluates with fewer operators only names of the text, of helper functions, and of formats that `printf` takes.
pub fn names_are_known()
    ensures { NamesAreKnown }
{}

/// Such a format has fewer than 2^24 conversions.
pub fn formats_have_conversions()
    ensures { FormatsHaveConversions }
{}

/// A typed body evaluates names of letters, digits and `_` alone, where what is declared has such names.
pub fn typed_bodies_name_text()
    ensures { TypedBodiesNameText }
{}

/// The function `main` of a program is reached.
pub fn main_is_reached()
    ensures { MainIsReached }
{}

/// The names in what is kept of a program are those of its text, or of helper functions that are kept too.
pub fn items_are_fit()
    ensures { ItemsAreFit }
{}

/// The first values of objects point at functions that are reached.
pub fn firsts_start()
    ensures { FirstsStart }
{}

/// The names in the bodies of functions that are kept are reached.
pub fn bodies_are_reached()
    ensures { BodiesAreReached }
{}

/// The helper functions that are kept call only helper functions that are defined.
pub fn helpers_call_defined()
    ensures { HelpersCallDefined }
{}

/// Names that pass are those of the text, of operators and of formats, and the functions among them are defined.
pub fn names_pass()
    ensures { NamesPass }
{}

/// A program is typed with fewer operators, in what is kept of it.
pub fn programs_stay_typed()
    ensures { ProgramsStayTyped }
{}

/// A program is a typed text with fewer operators: its externals are typed, and its `main` is kept.
pub fn units_stay_typed()
    ensures { UnitsStayTyped }
{}

/// Each body of a program is typed, in a scope of names of a text.
pub fn bodies_of_programs_are_typed()
    ensures { BodiesOfProgramsAreTyped }
{}

/// With fewer operators the bodies of a program evaluate only names of the text, of helper functions, and of formats that `printf` takes.
pub fn names_of_programs_are_known()
    ensures { NamesOfProgramsAreKnown }
{}

/// The formats of a program are such that `printf` takes, each of fewer than 2^24 conversions.
pub fn formats_of_programs_are_formats()
    ensures { FormatsOfProgramsAreFormats }
{}

/// The objects of file scope begin with pointers to those functions alone whose names their first values have.
pub fn file_objects_are_named()
    ensures { FileObjectsAreNamed }
{}
