// The conversions of a format.

ghost use Rattle.std.specs.Prelude.{◌≡◌, ◌==◌, ◌∷◌, ◌++◌, ℕ, List, [], false, codes, IfOk};
ghost use Rattle.std.specs.List.{list_any};
ghost use Rattle.std.specs.Option.{option_map, option_map_or};
ghost use Rattle.c_types.specs.Operands.{conversions_of};
ghost use Rattle.c_format_terms.specs.Conversions as plain;
ghost use Rattle.c_format_terms.specs.Conversions.{conversions_from};
ghost use Rattle.c_format_terms.specs.declared.conversions.State.TheVariants as state;

use std::alloc::{AllocError, Global};

/// Where one is in a format.
#[derive(Clone, Copy)]
pub enum State {
    Text,
    /// Behind the percent of a conversion.
    Percent,
    /// Behind a percent and a byte that is no conversion.
    Fault,
}

/// The byte that begins a conversion.
pub fn is_percent(byte: u8) -> bool
    ensures { result ≡ (byte == 37) }
{
    byte == b'%'
}

// A letter of a conversion.
fn is_conversion(letter: u8) -> bool
    ensures { result ≡ list_any (λ c. letter == c) (codes "duxcs") }
{
    matches!(letter, b'd' | b'u' | b'x' | b'c' | b's')
}

// Behind a byte in the text of a format.
fn behind_text(byte: u8) -> State
    ensures { result ≡ plain.behind_text byte }
{
    if is_percent(byte) {
        State::Percent
    } else {
        State::Text
    }
}

// Behind the letter of a conversion, which is added.
fn add_conversion(letters: &mut Vec<u8>, letter: u8) -> Result<State, AllocError>
    ensures { (format : List ℕ) → IfOk result (λ next. option_map (λ ls. letters.new.items ++ ls) (conversions_from next format) ≡ option_map (λ ls. letters.old.items ++ ls) (option_map (λ ls. letter ∷ ls) (conversions_from state.Text format))) }
{
    letters.push(letter)?;
    Ok(State::Text)
}

// Behind a byte that isn't a percent and follows one. A conversion's letter is added.
fn add_other(letters: &mut Vec<u8>, byte: u8) -> Result<State, AllocError>
    ensures { (format : List ℕ) → (byte == 37) ≡ false → IfOk result (λ next. option_map (λ ls. letters.new.items ++ ls) (conversions_from next format) ≡ option_map (λ ls. letters.old.items ++ ls) (conversions_from state.Percent (byte ∷ format))) }
{
    if is_conversion(byte) {
        add_conversion(letters, byte)
    } else {
        Ok(State::Fault)
    }
}

// Behind a byte that follows a percent. A conversion's letter is added.
fn add_behind_percent(letters: &mut Vec<u8>, byte: u8) -> Result<State, AllocError>
    ensures { (format : List ℕ) → IfOk result (λ next. option_map (λ ls. letters.new.items ++ ls) (conversions_from next format) ≡ option_map (λ ls. letters.old.items ++ ls) (conversions_from state.Percent (byte ∷ format))) }
{
    if is_percent(byte) {
        Ok(State::Text)
    } else {
        add_other(letters, byte)
    }
}

// Behind a byte of a format. A conversion's letter is added.
fn add_letter(letters: &mut Vec<u8>, before: State, byte: u8) -> Result<State, AllocError>
    ensures { (format : List ℕ) → IfOk result (λ next. option_map (λ ls. letters.new.items ++ ls) (conversions_from next format) ≡ option_map (λ ls. letters.old.items ++ ls) (conversions_from before (byte ∷ format))) }
{
    match before {
        State::Text => Ok(behind_text(byte)),
        State::Percent => add_behind_percent(letters, byte),
        State::Fault => Ok(State::Fault),
    }
}

/// The conversions of a format, by their letters. There are none where another byte or none follows a percent.
pub fn conversions(alloc: Global, format: &[u8]) -> Result<Vec<u8>, AllocError>
    ensures { IfOk result (λ letters. letters.items ≡ option_map_or (λ ls. ls) (conversions_of format.now) []) }
{
    let mut letters = Vec::new(alloc);
    let mut place = State::Text;
    for byte in format {
        let next = add_letter(&mut letters, place, *byte)?;
        place = next;
    }
    match place {
        State::Text => Ok(letters),
        State::Percent => Ok(Vec::new(alloc)),
        State::Fault => Ok(Vec::new(alloc)),
    }
}
