// A `switch` behind its value and its parts.

ghost use Rattle.std.specs.Prelude.{◌≡◌, ◌+◌, ◌++◌, ◌∷◌, [], ℕ, List, length, OnOk};
ghost use Rattle.c_eval.specs.State as run;
ghost use Rattle.c_eval.specs.Environment.{Default};
ghost use Rattle.c_code.specs.Code as code;
ghost use Rattle.c_emitted.specs.Tables.{AreMeant};
ghost use Rattle.c_emitted.specs.Emits.{tables_of, Emits};
ghost use Rattle.c_aside.specs.Cases.{labels_of};
ghost use Rattle.c_blocks.specs.Objects.{unset_objects};
ghost use Rattle.c_flat.specs.Switches.{jumps_to, switch_code};

use c_aside::{Label, append, case_jumps, default_place, jump_count};
use c_blocks::enter_objects;
use c_emitted::{Code, Emitter, number_of};
use c_plain::Instruction;
use std::alloc::AllocError;

/// The parts of a `switch`, which were emitted apart, stand behind its value, with the jumps to their labels before them.
pub fn switch_parts(
    out: &mut Emitter<'_>,
    labels: &[Label],
    lengths: &[u32],
    parts: Code,
) -> Result<(), AllocError>
    ensures { (is : List code.Instruction) (cells : List (List run.Cell)) (count : ℕ) → AreMeant (tables_of out.old) is parts → length parts ≡ length is → unset_objects lengths.now ≡ cells → length cells ≡ count → OnOk result (Emits out.old out.new (switch_code (labels_of labels.now) is cells count) []) }
{
    let length = parts.count();
    let jumps = jump_count(labels)?;
    let past = default_place(labels, length);
    let all = number_of(jumps as usize + length as usize + 3)?;
    out.add(Instruction::Switch(all))?;
    enter_objects(out, lengths)?;
    case_jumps(out, labels, past)?;
    append(out, parts)?;
    out.add(Instruction::Leave)?;
    out.add(Instruction::Done)
}
