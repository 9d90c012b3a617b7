// Digits in hex.

ghost use Rattle.std.specs.Prelude.{◌≡◌, ◌<◌, ◌^◌, ◌++◌, false, map, reverse, OnOk};
ghost use Rattle.std.specs.Fmt.{digit_glyph, digits};
ghost use Rattle.word24.specs.Word.{number_of};
ghost use Rattle.c_store.specs.Values.{Word as WordValue};
ghost use Rattle.c_store.specs.Shown.{value_of};
ghost use Rattle.c_plain.specs.Machine.{quiet, unless_act, onward, with_values, on_top};
ghost use Rattle.c_plain.specs.Operators.{number_in};
ghost use Rattle.c_plain.specs.Rule.{hex_digits};
ghost use Rattle.c_parts.specs.Parts.{machine_of, ComesQuietly};

use crate::halt::Halt;
use crate::parts::Parts;
use crate::words::word_in;
use c_store::{Act, Value};
use std::alloc::AllocError;
use word24::Word;

// The sign of a digit.
#[inline(always)]
fn glyph(digit: u32) -> Value
    requires { digit < 16 }
    ensures { value_of result ≡ WordValue (digit_glyph false digit) }
{
    let sign = if digit < 10 { 48 + digit } else { 87 + digit };
    Value::Word(Word::wrap(u64::from(sign)))
}

// The digits of a word, the last one first.
fn digits_of(word: Word, out: &mut Vec<Value>) -> Result<(), AllocError>
    ensures { OnOk result (reverse (map value_of out.new.items) ≡ map WordValue (digits 16 false (number_of word))) }
{
    out.clear();
    let mut rest = word.get();
    for _index in 0..64u32 {
        out.push(glyph(rest % 16))?;
        rest /= 16;
        if rest == 0 {
            return Ok(());
        }
    }
    Ok(())
}

/// The word on top becomes its digits in hex, the first one on top, behind the last of which stands a mark.
pub fn hex(parts: &mut Parts) -> Result<(), Halt>
    requires { parts.old.at < 2 ^ 32 }
    ensures { ComesQuietly (machine_of parts.old) (machine_of parts.new) result (on_top (machine_of parts.old).values.mine (λ v rest. unless_act (number_in v) (λ n. quiet (onward (with_values (machine_of parts.old) (hex_digits n ++ rest)))))) }
{
    let Some(v) = parts.values.top() else {
        return Err(Halt::Act(Act::HelperLimit));
    };
    let word = match word_in(v) {
        Ok(word) => word,
        Err(act) => return Err(Halt::Act(act)),
    };
    match digits_of(word, &mut parts.arguments) {
        Ok(()) => {}
        Err(AllocError) => return Err(Halt::Memory),
    }
    match parts.values.put_digits(&parts.arguments) {
        Ok(()) => {
            parts.at += 1;
            Ok(())
        }
        Err(AllocError) => Err(Halt::Memory),
    }
}
