//! What is emitted for a program of C, and what a target's program for it shows.

ghost use Rattle.std.specs.Prelude.{ℕ, ◌^◌, ◌<◌, ◌≤◌, List};
ghost use Rattle.mach_core.specs.Rule.{Rule, IsInput};
ghost use Rattle.eir_core.specs.Eir.{size_of};
ghost use Rattle.c_syntax.specs.Plain.{CUnit};
ghost use Rattle.sim_trait.specs.Bound.{Slowdown, Bound};
ghost use Rattle.sim_trait.specs.Faithful.{Follows};
ghost use Rattle.sim_bounds.specs.Closed.{IsClosed};
ghost use Rattle.c_compiled.specs.Compiled.{compiled, IsCompiledOnBytes};
ghost use Rattle.c_compiled.specs.Built.{MeansAsItsSource};
ghost use Rattle.c_compiled.specs.Moments.{RunsAsItsSource, MomentsAreBounded, EndsInTime};
ghost use Rattle.c_compiled.specs.Laws.{ProgramsAreCompiled};
ghost use Rattle.c_compiled.specs.Texts.{TextsAreCompiled};
ghost use Rattle.c_compiled.specs.PrintersFailLaws.{ProgramsPrintersFail};
ghost use Rattle.c_compiled.specs.MeaningKeptLaws.{DesugaredTextsStand, DesugaringKeepsMeaning, MeaningFollows};
ghost use Rattle.c_compiled.specs.Helped.{CallsOfPlainHelpers, PlainHelpersAre, StringsArePut, StringsAreSpelled};
ghost use Rattle.c_compiled.specs.Formatted.{FormatsPrint};
ghost use Rattle.c_compiled.specs.Found.{FoundFormatsAreFormats, FoundHelpersAreHelpers};
ghost use Rattle.c_compiled.specs.ProgramHelpersLaws.{HelpersOfProgramsAreThere};
ghost use Rattle.c_compiled.specs.Weights.{FormatsAreInWeight};

use c_fitting::units_declare_in_blocks;

/// What is emitted for a program of C shows what the program means, on each input of bytes.
pub fn programs_are_compiled()
    ensures { ProgramsAreCompiled }
{}

/// What a text of bytes spells can be lowered, to a program of at most its room that behaves as it.
pub fn texts_are_compiled()
    ensures { TextsAreCompiled }
{
    units_declare_in_blocks();
}

/// A target's program that follows what is emitted for a program of C shows what the program means.
pub fn what_follows_shows_the_meaning<D>()
    ensures { (target : Rule D) (first : D) (most : Bound) (u : CUnit) → Follows target first most (compiled u) → IsCompiledOnBytes u → MeansAsItsSource target first most u }
{}

/// It never writes or takes ahead of the program of C short of an undefined act, meets no fault, goes on where that goes
/// on, and has ended by the bound, for good and with the same, where that ends.
pub fn what_follows_runs_as_its_source<D>()
    ensures { (target : Rule D) (first : D) (most : Bound) (u : CUnit) → Follows target first most (compiled u) → IsCompiledOnBytes u →
        (input : List ℕ) → IsInput input → RunsAsItsSource target first most u input }
{}

/// Its bound is a number, by the size of the program, the weight of the text and the units of fuel.
pub fn built_moments_are_bounded<D>()
    ensures { (target : Rule D) (first : D) (most : Bound) (t : Slowdown) (size : ℕ) (u : CUnit) → IsClosed t most →
        size_of (compiled u) ≤ size → size < 2 ^ 23 → MomentsAreBounded target first most t size u }
{}

/// Where the program of C ends, it has ended after this number of steps, for good and with the same.
pub fn what_follows_ends_in_time<D>()
    ensures { (target : Rule D) (first : D) (most : Bound) (t : Slowdown) (size : ℕ) (u : CUnit) → Follows target first most (compiled u) → IsCompiledOnBytes u →
        IsClosed t most → size_of (compiled u) ≤ size → size < 2 ^ 23 → EndsInTime target first t size u }
{}

/// The functions of a program that print, that of `puts` and those of formats, are undefined where what they stand for is, behind the same characters.
pub fn printers_fail()
    ensures { ProgramsPrintersFail }
{}

/// Each program with fewer operators stands for the program.
pub fn desugared_texts_stand()
    ensures { DesugaredTextsStand }
{}

/// It has the meaning of the program, on each input, at each amount of fuel and each ration of the second fuel from 512 on.
pub fn desugaring_keeps_meaning()
    ensures { DesugaringKeepsMeaning }
{}

/// It is that of the text, where each text with fewer operators stands for its text.
pub fn meaning_follows()
    ensures { MeaningFollows }
{}

/// A plain helper function has few operators, calls such alone, and fits its frame and its cost.
pub fn plain_helpers_are()
    ensures { PlainHelpersAre }
{}

/// What they call may be called in code.
pub fn calls_of_plain_helpers()
    ensures { CallsOfPlainHelpers }
{}

/// The function of `%s` is a loop that spells a string.
pub fn strings_are_spelled()
    ensures { StringsAreSpelled }
{}

/// The function of `puts` spends a unit and then runs straight on.
pub fn strings_are_put()
    ensures { StringsArePut }
{}

/// They print, and have their frames in their callers'.
pub fn formats_print()
    ensures { FormatsPrint }
{}

/// Each function of such a text with the name of a helper function is this function, and its charge is its frame.
pub fn found_helpers_are_helpers()
    ensures { FoundHelpersAreHelpers }
{}

/// So is each function with the name of a format's.
pub fn found_formats_are_formats()
    ensures { FoundFormatsAreFormats }
{}

/// A program with fewer operators has each helper function that is kept, with those that it calls.
pub fn helpers_of_programs_are_there()
    ensures { HelpersOfProgramsAreThere }
{}

/// A format that has a function has no more bytes than its program weighs.
pub fn formats_are_in_weight()
    ensures { FormatsAreInWeight }
{}
