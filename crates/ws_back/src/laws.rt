// Laws of the translation.
ghost use Rattle.ws_back.specs.Laws.{CodeSimulates, FewStepsFollow};

/// The Whitespace program for a program does what the program does, step by step.
pub fn code_simulates()
    ensures { CodeSimulates }
{}

/// Each step of a program is followed by 24 steps at most, and a jump to the block that a register names by 8 more
/// and 6 for each binary digit of the number of blocks.
pub fn few_steps_follow()
    ensures { FewStepsFollow }
{}
