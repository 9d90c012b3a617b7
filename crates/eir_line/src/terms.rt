//! Registers, numbers and labels' values.

ghost use Rattle.std.specs.Prelude.{◌≡◌};
ghost use Rattle.eir_line.specs.Grammar.{register_at, signed_at, label_value_at, named_at, term_at, constant_at};
ghost use Rattle.eir_line.specs.Reading.{Finds, term_of};

use crate::bytes::{digits_at, name_at, past_blanks, starts_name};
use crate::line::ReadTerm;
use crate::words::register_of;
use eir_core::Reg;

// The register at the front, and what follows it.
#[tactic(auto, unfolding(crate::specs::Grammar::register_at))]
pub fn register_at(bytes: &[u8]) -> Option<(Reg, &[u8])>
    ensures { Finds (λ x. (x.0, x.1.now)) result (register_at bytes.now) }
{
    let (name, rest) = name_at(bytes)?;
    let register = register_of(name)?;
    Some((register, rest))
}

// Digits, right behind a minus or by themselves.
#[tactic(auto, unfolding(crate::specs::Grammar::signed_at, crate::specs::Grammar::number_at))]
fn signed_at(bytes: &[u8]) -> Option<(ReadTerm<'_>, &[u8])>
    ensures { Finds (λ x. (term_of x.0, x.1.now)) result (signed_at bytes.now) }
{
    match bytes {
        [b'-', rest @ ..] => {
            let (digits, rest) = digits_at(rest)?;
            Some((ReadTerm::Number(true, digits), rest))
        }
        _ => {
            let (digits, rest) = digits_at(bytes)?;
            Some((ReadTerm::Number(false, digits), rest))
        }
    }
}

// The value of a name's label, with what is added to it.
#[tactic(auto, unfolding(crate::specs::Grammar::label_value_at, crate::specs::Grammar::number_at))]
fn label_value_at<'t>(name: &'t [u8], bytes: &'t [u8]) -> Option<(ReadTerm<'t>, &'t [u8])>
    ensures { Finds (λ x. (term_of x.0, x.1.now)) result (label_value_at name.now bytes.now) }
{
    match past_blanks(bytes) {
        [b'+', rest @ ..] => {
            let (digits, rest) = digits_at(past_blanks(rest))?;
            Some((ReadTerm::Label(name, digits), rest))
        }
        _ => Some((ReadTerm::Label(name, &[]), bytes)),
    }
}

// A register or a label's value.
#[tactic(auto, unfolding(crate::specs::Grammar::named_at))]
fn named_at(bytes: &[u8]) -> Option<(ReadTerm<'_>, &[u8])>
    ensures { Finds (λ x. (term_of x.0, x.1.now)) result (named_at bytes.now) }
{
    let (name, rest) = name_at(bytes)?;
    match register_of(name) {
        Some(register) => Some((ReadTerm::Register(register), rest)),
        None => label_value_at(name, rest),
    }
}

// A register, a number or a label's value, and what follows it.
#[tactic(auto, unfolding(crate::specs::Grammar::term_at))]
pub fn term_at(bytes: &[u8]) -> Option<(ReadTerm<'_>, &[u8])>
    ensures { Finds (λ x. (term_of x.0, x.1.now)) result (term_at bytes.now) }
{
    match bytes {
        [b, ..] if starts_name(*b) => named_at(bytes),
        _ => signed_at(bytes),
    }
}

// A number or a label's value, and what follows it.
#[tactic(auto, unfolding(crate::specs::Grammar::constant_at))]
pub fn constant_at(bytes: &[u8]) -> Option<(ReadTerm<'_>, &[u8])>
    ensures { Finds (λ x. (term_of x.0, x.1.now)) result (constant_at bytes.now) }
{
    match term_at(bytes)? {
        (ReadTerm::Register(_), _) => None,
        other => Some(other),
    }
}
