// What follows from the definitions alone.
ghost use Rattle.wasm_bin.specs.declared.module.Module.{Module};
ghost use Rattle.wasm_build.specs.Control.{StraightCodeRuns, BlocksOpenAndClose, BranchesGoOut, MainEnds, HostIsCalled};
ghost use Rattle.wasm_build.specs.Words.{WordsAreApart, SegmentsReadAsWords};
ghost use Rattle.wasm_build.specs.Joined.{JoinedCodeTypes};
ghost use Rattle.wasm_build.specs.Nested.{TypedCodeIsExpression};

/// Code without blocks, branches and calls does what a function on values, locals, globals and memory says, in as many
/// steps as it has instructions.
#[tactic(auto, using(crate::proofs::Straightly::straight))]
pub fn straight_code_runs()
    ensures { (m : Module) → StraightCodeRuns m }
{}

/// Blocks and loops open and close in a step.
#[tactic(auto, using(crate::proofs::Ways::blocks))]
pub fn blocks_open_and_close()
    ensures { (m : Module) → BlocksOpenAndClose m }
{}

/// Branches go out to their labels in a step.
#[tactic(auto, using(crate::proofs::Ways::branches))]
pub fn branches_go_out()
    ensures { (m : Module) → BranchesGoOut m }
{}

/// The first call ends the run in a step.
#[tactic(auto, using(crate::proofs::Ways::ends))]
pub fn main_ends()
    ensures { (m : Module) → MainEnds m }
{}

/// The functions of the host take and write a byte in a step.
#[tactic(auto, using(crate::proofs::Ways::host))]
pub fn host_is_called()
    ensures { (m : Module) → HostIsCalled m }
{}

/// Code put behind code is spelled as both are, and types where they do.
#[tactic(auto, using(crate::proofs::Joining::joining))]
pub fn joined_code_types()
    ensures { JoinedCodeTypes }
{}

/// Typed code in which at most 2^20 blocks nest, with an end behind it, is an expression of the binary format.
#[tactic(auto, using(crate::proofs::Nests::expression))]
pub fn typed_code_is_expression()
    ensures { TypedCodeIsExpression }
{}

/// A word that is stored leaves all words as they are that don't overlap it.
#[tactic(auto, using(crate::proofs::Overlaps::apart))]
pub fn words_are_apart()
    ensures { WordsAreApart }
{}

/// The bytes of words read as these words, and as 0 behind them.
#[tactic(auto, using(crate::proofs::Overlaps::segments))]
pub fn segments_read_as_words()
    ensures { SegmentsReadAsWords }
{}
