// What holds of the definitions.

ghost use Rattle.bf_jump.specs.Goal.{JumpsAreShort};
ghost use Rattle.bf_jump.specs.Note.{NotesAreTaken};
ghost use Rattle.bf_jump.specs.Pose.{ComparisonsArePosed};

/// A noted number takes the place of one that was aimed at, and a note that is dropped leaves nothing.
pub fn notes_are_taken()
    ensures { NotesAreTaken }
{}

/// Of a comparison that was asked for, what is told is whether it holds.
pub fn comparisons_are_posed()
    ensures { ComparisonsArePosed }
{}

/// What a conditional jump asks has at most 1,000 commands, with any registers, constants and goals.
pub fn jumps_are_short()
    ensures { JumpsAreShort }
{}
