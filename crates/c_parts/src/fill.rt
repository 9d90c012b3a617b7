// First values of many cells.

ghost use Rattle.std.specs.Prelude.{◌≡◌, ◌<◌, ◌^◌, ◌+◌, true, length, MatchResult, Ok, Err};
ghost use Rattle.c_store.specs.Values.{Word as WordValue};
ghost use Rattle.c_store.specs.Words.{offset_of};
ghost use Rattle.c_store.specs.Shown.{value_of};
ghost use Rattle.c_plain.specs.Rule.{filled, zero_of, zeros_of, letters_of, set_first};
ghost use Rattle.c_parts.specs.Parts.{machine_of, ComesQuietly};

use crate::assign::place_in;
use crate::halt::Halt;
use crate::parts::Parts;
use c_plain::First;
use c_store::{Act, Kind, Literal, Store, Value, at_offset, offset_of};
use word24::Word;

// 0 or null.
#[inline(always)]
fn zero_of(kind: Kind) -> Value
    ensures { value_of result ≡ zero_of kind }
{
    match kind {
        Kind::Number => Value::Word(Word::wrap(0)),
        Kind::ObjectPointer | Kind::FunctionPointer => Value::Null,
    }
}

// Writes the zeros of these kinds to cells one behind the other.
fn fill_zeros(
    store: &mut Store,
    literals: &[Literal],
    kinds: &[Kind],
    place: Value,
) -> Result<(), Act>
    requires { offset_of (value_of place) + length kinds.now < 2 ^ 32 }
    ensures { MatchResult result (λ _. filled literals.now (zeros_of kinds.now) (value_of place) store.old ≡ Ok store.new) (λ act. filled literals.now (zeros_of kinds.now) (value_of place) store.old ≡ Err act) }
{
    let first = offset_of(place);
    for (index, kind) in kinds.iter().enumerate() {
        let cell = at_offset(place, first + index as u32);
        match store.store(literals, *kind, cell, zero_of(*kind)) {
            Ok(()) => {}
            Err(act) => return Err(act),
        }
    }
    Ok(())
}

// A byte as a word.
#[inline(always)]
fn letter_of(byte: u8) -> Value
    ensures { value_of result ≡ WordValue byte }
{
    Value::Word(Word::wrap(u64::from(byte)))
}

// Writes these bytes as words to cells one behind the other.
fn fill_letters(
    store: &mut Store,
    literals: &[Literal],
    bytes: &[u8],
    place: Value,
) -> Result<(), Act>
    requires { offset_of (value_of place) + length bytes.now < 2 ^ 32 }
    ensures { MatchResult result (λ _. filled literals.now (letters_of bytes.now) (value_of place) store.old ≡ Ok store.new) (λ act. filled literals.now (letters_of bytes.now) (value_of place) store.old ≡ Err act) }
{
    let first = offset_of(place);
    for (index, byte) in bytes.iter().enumerate() {
        let cell = at_offset(place, first + index as u32);
        match store.store(literals, Kind::Number, cell, letter_of(*byte)) {
            Ok(()) => {}
            Err(act) => return Err(act),
        }
    }
    Ok(())
}

// Whether so many cells from a place on have offsets below 2^32.
#[inline(always)]
fn has_room(place: Value, count: usize) -> bool
    ensures { result ≡ true → offset_of (value_of place) + count < 2 ^ 32 }
{
    count < 4294967296 && u64::from(offset_of(place)) + (count as u64) < 4294967296
}

/// Writes the zeros of these kinds to the object in a slot.
pub fn clear(parts: &mut Parts, literals: &[Literal], at: First, kinds: &[Kind]) -> Result<(), Halt>
    requires { parts.old.at < 2 ^ 32 }
    ensures { ComesQuietly (machine_of parts.old) (machine_of parts.new) result (set_first literals.now (machine_of parts.old) at (zeros_of kinds.now) (machine_of parts.old).values.mine) }
{
    let place = match place_in(parts, at) {
        Ok(place) => place,
        Err(act) => return Err(Halt::Act(act)),
    };
    if !has_room(place, kinds.len()) {
        return Err(Halt::Memory);
    }
    match fill_zeros(&mut parts.store, literals, kinds, place) {
        Ok(()) => {
            parts.at += 1;
            Ok(())
        }
        Err(act) => Err(Halt::Act(act)),
    }
}

/// Writes these bytes as words to the object in a slot.
pub fn spell(parts: &mut Parts, literals: &[Literal], at: First, bytes: &[u8]) -> Result<(), Halt>
    requires { parts.old.at < 2 ^ 32 }
    ensures { ComesQuietly (machine_of parts.old) (machine_of parts.new) result (set_first literals.now (machine_of parts.old) at (letters_of bytes.now) (machine_of parts.old).values.mine) }
{
    let place = match place_in(parts, at) {
        Ok(place) => place,
        Err(act) => return Err(Halt::Act(act)),
    };
    if !has_room(place, bytes.len()) {
        return Err(Halt::Memory);
    }
    match fill_letters(&mut parts.store, literals, bytes, place) {
        Ok(()) => {
            parts.at += 1;
            Ok(())
        }
        Err(act) => Err(Halt::Act(act)),
    }
}
