// The jumps to the labels of a `switch`.

ghost use Rattle.std.specs.Prelude.{◌≡◌, ◌+◌, ◌<◌, ℕ, [], length, is_some, count_by, IfOk, OnOk};
ghost use Rattle.c_eval.specs.Environment.{Default};
ghost use Rattle.c_code.specs.Code as code;
ghost use Rattle.c_code.specs.Code.{label_place};
ghost use Rattle.c_emitted.specs.Emits.{Emits};
ghost use Rattle.c_aside.specs.Cases.{labels_of, JumpsTo};

use c_emitted::{Emitter, number_of};
use c_plain::Instruction;
use std::alloc::AllocError;
use word24::Word;

/// A label of a `switch`: its word, or the default, and how many instructions stand before it behind the first part.
#[derive(Clone, Copy)]
pub struct Label {
    pub word: Option<Word>,
    pub at: u32,
}

// How many labels have a word.
fn case_count(labels: &[Label]) -> usize
    ensures { result ≡ count_by (λ l. is_some l.word) labels.now }
{
    labels.iter().filter(|l| l.word.is_some()).count()
}

/// How many instructions the jumps to the labels are.
pub fn jump_count(labels: &[Label]) -> Result<u32, AllocError>
    ensures { (otherwise : ℕ) → IfOk result (λ n. n ≡ length (code.case_jumps (labels_of labels.now) otherwise)) }
{
    let cases = number_of(case_count(labels))?;
    if cases > 4294967293 {
        return Err(AllocError);
    }
    Ok(cases + 2)
}

/// Where the first default stands, or the place past the parts.
pub fn default_place(labels: &[Label], past: u32) -> u32
    ensures { result ≡ label_place Default (labels_of labels.now) past }
{
    for label in labels {
        if label.word.is_none() {
            return label.at;
        }
    }
    past
}

// The jump to a label, if it has a word, where so many instructions are left of all jumps. The answer is how many are
// left behind it.
fn case_jump(out: &mut Emitter<'_>, label: Label, left: u32) -> Result<u32, AllocError>
    requires { 0 < left }
    ensures { IfOk result (λ n. JumpsTo out.old out.new label left n) }
{
    let Some(word) = label.word else {
        return Ok(left);
    };
    let behind = left - 1;
    if label.at > 4294967295 - behind {
        return Err(AllocError);
    }
    out.add(Instruction::JumpAt(word, label.at + behind))?;
    Ok(behind)
}

/// The jumps to the labels, and the one past them to another place behind the first part.
pub fn case_jumps(out: &mut Emitter<'_>, labels: &[Label], otherwise: u32) -> Result<(), AllocError>
    ensures { OnOk result (Emits out.old out.new (code.case_jumps (labels_of labels.now) otherwise) []) }
{
    let mut left = jump_count(labels)?;
    for label in labels {
        left = case_jump(out, *label, left)?;
    }
    out.add(Instruction::Pop)?;
    out.add(Instruction::Jump(otherwise))
}
