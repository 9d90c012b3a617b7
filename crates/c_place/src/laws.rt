//! What holds of code that is cut behind its jumps.

ghost use Rattle.c_place.specs.Laws.{CodeStands, CutIsProgram, OperationsRun, QuietCodeRuns};

/// Closed code stands whole in its program, from the first block on.
pub fn code_stands()
    ensures { CodeStands }
{}

/// The blocks of closed code are its jumps, and it is a program where it is small enough.
pub fn cut_is_program()
    ensures { CutIsProgram }
{}

/// Quiet code is run in as many steps as it has operations, and leads behind itself.
pub fn quiet_code_runs()
    ensures { QuietCodeRuns }
{}

/// What the operations do that jump, or take or write a byte.
pub fn operations_run()
    ensures { OperationsRun }
{}
