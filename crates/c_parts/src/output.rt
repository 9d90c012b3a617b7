// Instructions that write.

ghost use Rattle.std.specs.Prelude.{◌≡◌, ◌∷◌, ◌<◌, ◌^◌, ◌%◌, [], drop, false, IfOk};
ghost use Rattle.std.specs.Fmt.{digits, signed_decimal};
ghost use Rattle.word24.specs.Word.{number_of, signed_of};
ghost use Rattle.mach_core.specs.Moved.{is_took};
ghost use Rattle.c_store.specs.Words.{cell_at};
ghost use Rattle.c_store.specs.Shown.{value_of};
ghost use Rattle.c_plain.specs.Machine.{on_top};
ghost use Rattle.c_plain.specs.Rule.{spelled, digit_put, letter_put, text_put};
ghost use Rattle.c_parts.specs.Parts.{machine_of, Comes, TakesWord};

use crate::halt::Halt;
use crate::parts::Parts;
use crate::words::word_in;
use c_store::{Act, Cell, Literal, Value, at_offset, offset_of};
use mach_core::Moved;
use word24::Word;

// The word on top, which is dropped.
#[inline(always)]
fn take_word(parts: &mut Parts) -> Result<Word, Halt>
    requires { parts.old.at < 2 ^ 32 }
    ensures { TakesWord (machine_of parts.old) (machine_of parts.new) result }
{
    let Some(v) = parts.values.pop() else {
        return Err(Halt::Act(Act::HelperLimit));
    };
    match word_in(v) {
        Ok(word) => {
            parts.at += 1;
            Ok(word)
        }
        Err(act) => Err(Halt::Act(act)),
    }
}

/// Writes the word on top as an int.
#[inline(always)]
pub fn decimal(parts: &mut Parts) -> Result<Moved, Halt>
    requires { parts.old.at < 2 ^ 32 }
    ensures comes { Comes (machine_of parts.old) (machine_of parts.new) result (spelled (machine_of parts.old) (λ n. signed_decimal (signed_of n))) }
    ensures took { IfOk result (λ moved. is_took moved ≡ false) }
{
    match take_word(parts) {
        Ok(word) => Ok(Moved::Spelled(i64::from(word.signed()))),
        Err(halt) => Err(halt),
    }
}

/// Writes the word on top as unsigned.
#[inline(always)]
pub fn unsigned(parts: &mut Parts) -> Result<Moved, Halt>
    requires { parts.old.at < 2 ^ 32 }
    ensures comes { Comes (machine_of parts.old) (machine_of parts.new) result (spelled (machine_of parts.old) (λ n. digits 10 false n)) }
    ensures took { IfOk result (λ moved. is_took moved ≡ false) }
{
    match take_word(parts) {
        Ok(word) => Ok(Moved::Spelled(i64::from(word.get()))),
        Err(halt) => Err(halt),
    }
}

/// Writes the word on top as a character.
#[inline(always)]
pub fn character(parts: &mut Parts) -> Result<Moved, Halt>
    requires { parts.old.at < 2 ^ 32 }
    ensures comes { Comes (machine_of parts.old) (machine_of parts.new) result (spelled (machine_of parts.old) (λ n. n % 2 ^ 8 ∷ [])) }
    ensures took { IfOk result (λ moved. is_took moved ≡ false) }
{
    match take_word(parts) {
        Ok(word) => Ok(Moved::Wrote((word.get() % 256) as u8)),
        Err(halt) => Err(halt),
    }
}

/// Writes the digit on top, or drops the mark behind the last one.
#[inline(always)]
pub fn digit(parts: &mut Parts) -> Result<Moved, Halt>
    requires { parts.old.at < 2 ^ 32 }
    ensures comes { Comes (machine_of parts.old) (machine_of parts.new) result (on_top (machine_of parts.old).values.mine (λ v rest. digit_put (machine_of parts.old) v rest)) }
    ensures took { IfOk result (λ moved. is_took moved ≡ false) }
{
    match parts.values.pop() {
        Some(Value::Word(word)) => Ok(Moved::Wrote((word.get() % 256) as u8)),
        Some(Value::Missing) => {
            parts.at += 1;
            Ok(Moved::Quiet)
        }
        Some(_) => Err(Halt::Act(Act::OtherKind)),
        None => Err(Halt::Act(Act::HelperLimit)),
    }
}

// Writes a letter of the string on top, where it isn't the zero, which costs a unit.
#[inline(always)]
fn put_letter(parts: &mut Parts, v: Value, word: Word) -> Result<Moved, Halt>
    requires here { parts.old.at < 2 ^ 32 }
    requires top { (machine_of parts.old).values.mine ≡ value_of v ∷ drop 1 (machine_of parts.old).values.mine }
    ensures comes { Comes (machine_of parts.old) (machine_of parts.new) result (letter_put (number_of word) (machine_of parts.old) (value_of v) (drop 1 (machine_of parts.old).values.mine)) }
    ensures took { IfOk result (λ moved. is_took moved ≡ false) }
{
    if word.get() == 0 {
        parts.values.drop_many(1);
        parts.at += 1;
        return Ok(Moved::Quiet);
    }
    if parts.left == 0 {
        return Err(Halt::Exhausted);
    }
    let Some(offset) = offset_of(v).checked_add(1) else {
        return Err(Halt::Memory);
    };
    parts.left -= 1;
    parts.values.replace(at_offset(v, offset));
    Ok(Moved::Wrote((word.get() % 256) as u8))
}

/// Writes the next letter of the string on top.
#[inline(always)]
pub fn letter(parts: &mut Parts, literals: &[Literal]) -> Result<Moved, Halt>
    requires { parts.old.at < 2 ^ 32 }
    ensures comes { Comes (machine_of parts.old) (machine_of parts.new) result (on_top (machine_of parts.old).values.mine (λ v rest. text_put (cell_at literals.now (machine_of parts.old).memory v) (machine_of parts.old) v rest)) }
    ensures took { IfOk result (λ moved. is_took moved ≡ false) }
{
    let Some(v) = parts.values.top() else {
        return Err(Halt::Act(Act::HelperLimit));
    };
    match parts.store.cell_at(literals, v) {
        None => Err(Halt::Act(Act::OutsideObject)),
        Some(Cell::Unset) => Err(Halt::Act(Act::UnsetCell)),
        Some(Cell::Holds(Value::Word(word))) => put_letter(parts, v, word),
        Some(Cell::Holds(_)) => Err(Halt::Act(Act::OtherKind)),
    }
}
