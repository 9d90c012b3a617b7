// Laws of folding and trimming, each as the clause of a function that does nothing.
ghost use Rattle.eir_opt.specs.Laws.{FoldingKeepsSteps, TrimmingLeavesStepsOut, OverwrittenRegistersAreNotRead, LastOperationsAreKept};

use eir_core::{jumps_end_blocks, runs_meet_operations, words_stay_words};

/// A folded program runs step for step as the program does.
pub fn folding_keeps_steps()
    ensures { FoldingKeepsSteps }
{}

/// A trimmed program runs as the program does, with steps left out.
pub fn trimming_leaves_steps_out()
    ensures { TrimmingLeavesStepsOut }
{
    words_stay_words();
    runs_meet_operations();
    jumps_end_blocks();
}

/// A register that counts as overwritten is set by a kept operation that doesn't read it, and not read before.
pub fn overwritten_registers_are_not_read()
    ensures { OverwrittenRegistersAreNotRead }
{}

/// The last operation of a block is kept.
pub fn last_operations_are_kept()
    ensures { LastOperationsAreKept }
{}
