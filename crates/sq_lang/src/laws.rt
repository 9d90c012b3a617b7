// What holds of the definitions.

ghost use Rattle.std.specs.Prelude.{List, ℤ};
ghost use Rattle.mach_core.specs.Rule.{FaultsAreSilent};
ghost use Rattle.sq_lang.specs.Laws.{CellsStandFromZero, CellsStayInRange, TextsAreDecided};
ghost use Rattle.sq_lang.specs.Step.{sq_rule};

/// Every text spells a program or is refused, and never both. It spells one program only, and is refused for one reason.
pub fn texts_are_decided()
    ensures { TextsAreDecided }
{}

/// A step that meets a fault takes nothing and writes nothing.
pub fn faults_are_silent()
    ensures { (program : List ℤ) → FaultsAreSilent (sq_rule program) }
{}

/// A program begins with its numbers from address 0 on, and with 0 behind them.
pub fn cells_stand_from_zero()
    ensures { CellsStandFromZero }
{}

/// Cells and the address are signed numbers of 64 bits all along a run, whatever the input.
pub fn cells_stay_in_range()
    ensures { CellsStayInRange }
{}
