// Laws of the translation.
ghost use Rattle.wasm_back.specs.Laws.{FewStepsFollow, FewStepsLoad, ModuleSimulates};

/// The module for a program does what the program does, step by step.
pub fn module_simulates()
    ensures { ModuleSimulates }
{}

/// The module comes to the program's start in five steps and one for each block, however many data words there are.
pub fn few_steps_load()
    ensures { FewStepsLoad }
{}

/// Each step of a program is followed by eight steps at most, and a jump by three more and one for each block.
pub fn few_steps_follow()
    ensures { FewStepsFollow }
{}
