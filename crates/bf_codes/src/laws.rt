ghost use Rattle.bf_codes.specs.Exact.{OperationsArePerformed, MemoryIsServed};
ghost use Rattle.bf_codes.specs.JumpCodesExact.{CodesPose, CodesNote, CodesDecide};

// What holds of the definitions.

/// The commands of each operation perform it.
pub fn operations_are_performed()
    ensures { OperationsArePerformed }
{}

/// The commands that serve what is asked of the memory do so, wherever they stand.
pub fn memory_is_served()
    ensures { MemoryIsServed }
{}

// What holds of the definitions.

/// The commands that pose a comparison do so.
pub fn comparisons_are_posed_by_code()
    ensures { CodesPose }
{}

/// The commands that note a goal do so, wherever they stand.
pub fn goals_are_noted()
    ensures { CodesNote }
{}

/// The text that decides does so, wherever it stands.
pub fn jumps_are_decided()
    ensures { CodesDecide }
{}
