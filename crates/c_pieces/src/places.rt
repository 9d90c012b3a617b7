// Places and words.

ghost use Rattle.std.specs.Prelude.{◌≡◌, ◌∷◌, [], ℕ, List, Option, OnOk, if◌then◌else◌};
ghost use Rattle.c_syntax.specs.Words.{meaning};
ghost use Rattle.c_types.specs.Types.{is_void};
ghost use Rattle.c_types.specs.Refusals as refusals;
ghost use Rattle.c_types.specs.Operands as plain;
ghost use Rattle.c_eval.specs.State as run;
ghost use Rattle.c_eval.specs.Environment.{operand_type, word_in};
ghost use Rattle.c_code.specs.Code as code;
ghost use Rattle.c_types.specs.Table.{Table, known};
ghost use Rattle.c_types.specs.Known.{Grows};
ghost use Rattle.c_operands.specs.Classes.{void};
ghost use Rattle.c_operands.specs.Seen.{IsOperand, IsJudged};
ghost use Rattle.c_forms.specs.Forms.{IsSomeOperand};
ghost use Rattle.word24.specs.Word.{number_of};
ghost use Rattle.c_emitted.specs.Emits.{Emits, AreFiles};
ghost use Rattle.c_pieces.specs.Places.{AreInSlots};

use crate::types::type_of;
use c_emitted::{Emitter, number_of};
use c_operands::{Class, Judged, Operand, class_of};
use c_plain::{Instruction, Unary};
use c_scopes::{Entity, Names};
use c_types::{Constant, Types};
use std::alloc::AllocError;
use word24::Word;

/// The place of the object that a name has, in the function or else at file scope.
pub fn named_place(out: &mut Emitter<'_>, slots: &Names<'_>, name: &[u8]) -> Result<(), AllocError>
    ensures { (objects names : List (List ℕ × Option ℕ)) → AreInSlots slots.now objects → AreFiles out.old names → OnOk result (Emits out.old out.new (code.object_code (meaning objects name.now) (meaning names name.now) ∷ []) []) }
{
    match slots.get(name) {
        Some(Entity::Object(slot)) => {
            let number = number_of(slot)?;
            out.add(Instruction::Slot(number))
        }
        Some(_) => out.add(Instruction::Nowhere),
        None => out.file(name),
    }
}

/// A place that there isn't.
pub fn nowhere(out: &mut Emitter<'_>) -> Result<(), AllocError>
    ensures { OnOk result (Emits out.old out.new (code.Nowhere ∷ []) []) }
{
    out.add(Instruction::Nowhere)
}

/// A word.
pub fn word(out: &mut Emitter<'_>, word: Word) -> Result<(), AllocError>
    ensures { OnOk result (Emits out.old out.new (code.Push (run.Word (number_of word)) ∷ []) []) }
{
    out.add(Instruction::PushWord(word))
}

// The word of a constant expression, or 0.
fn word_in(a: Judged<Operand>) -> Word
    ensures { (table : Table) (p : refusals.Judged plain.Operand) → IsJudged (IsOperand table) a p → number_of result ≡ word_in p }
{
    match a {
        Ok(x) => match x.constant {
            Constant::Value(word) => word,
            _ => Word::wrap(0),
        },
        Err(_) => Word::wrap(0),
    }
}

/// The word of a constant expression.
pub fn constant_word(out: &mut Emitter<'_>, a: Judged<Operand>) -> Result<(), AllocError>
    ensures { (table : Table) (p : refusals.Judged plain.Operand) → IsJudged (IsOperand table) a p → OnOk result (Emits out.old out.new (code.Push (run.Word (word_in p)) ∷ []) []) }
{
    word(out, word_in(a))
}

// Whether a class is that of void.
fn is_nothing(class: Class) -> bool
    ensures { result ≡ void class }
{
    matches!(class, Class::Void)
}

/// What a cast does: a value is used, or forgotten where the type is void.
pub fn cast(
    types: &mut Types<'_>,
    out: &mut Emitter<'_>,
    a: Judged<Operand>,
) -> Result<(), AllocError>
    requires { IsSomeOperand types.old a }
    ensures emits { (p : refusals.Judged plain.Operand) → IsJudged (IsOperand types.old) a p → OnOk result (Emits out.old out.new ((if is_void (operand_type p) then code.Forget else code.Use) ∷ []) []) }
    ensures grows { OnOk result (Grows (known types.old) (known types.new)) }
    ensures tags { OnOk result (types.new.tags ≡ types.old.tags) }
{
    let ty = type_of(types, a)?;
    if is_nothing(class_of(types, ty)) {
        out.add(Instruction::Unary(Unary::Forget))
    } else {
        out.add(Instruction::Unary(Unary::Use))
    }
}
