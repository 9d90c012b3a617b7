// Laws of the translation.
ghost use Rattle.sq_back.specs.Laws.{ImageSimulates, FewStepsFollow};

/// The SUBLEQ program for a program does what the program does, step by step.
pub fn image_simulates()
    ensures { ImageSimulates }
{}

/// Each step of a program is followed by 32 steps at most.
pub fn few_steps_follow()
    ensures { FewStepsFollow }
{}
