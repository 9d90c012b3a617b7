//! What holds of runs that follow, and of objects that lie in a memory.

ghost use Rattle.c_memory.specs.Laws.{AllRunsCompose, BlocksComeAndGo, StoresLie, UsesCost};

/// Runs come one behind the other, quiet code costs its operations, and a unit pays for what it has to.
pub fn runs_compose()
    ensures { AllRunsCompose }
{}

/// A use of a helper function has a fixed cost.
pub fn uses_cost()
    ensures { UsesCost }
{}

/// A write to a live cell is one to its address.
pub fn stores_lie()
    ensures { StoresLie }
{}

/// Objects lie at the top of a frame from the start of their block to its end.
pub fn blocks_come_and_go()
    ensures { BlocksComeAndGo }
{}
