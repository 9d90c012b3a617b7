//! Strings and their escapes.

ghost use Rattle.std.specs.Prelude.{◌≡◌, ℕ, ◌<◌, List, length, true, SomeIff, IfSome};
ghost use Rattle.std.specs.Char.{is_ascii_hexdigit, digit_value};
ghost use Rattle.eir_line.specs.Grammar.{hex_at, octal_at, escaped_of, escape_at, byte_at, string_at};
ghost use Rattle.eir_line.specs.Reading.{Finds, Gives};

use crate::bytes::{is_octal_digit, octal_len, past};
use crate::line::LineFault;
use crate::numbers::number_up_to;
use std::alloc::Global;

// The value of a hex digit.
fn hex_value(b: u8) -> Option<u8>
    ensures value { SomeIff result (is_ascii_hexdigit b ≡ true) (digit_value b) }
    ensures small { IfSome result (λ n. n < 16) }
{
    match b {
        b'0'..=b'9' => Some(b - b'0'),
        b'a'..=b'f' => Some(b - b'a' + 10),
        b'A'..=b'F' => Some(b - b'A' + 10),
        _ => None,
    }
}

// The byte of two hex digits.
#[tactic(auto, unfolding(crate::specs::Grammar::hex_at))]
fn hex_at(bytes: &[u8]) -> Option<(u8, &[u8])>
    ensures { Finds (λ x. (x.0, x.1.now)) result (hex_at bytes.now) }
{
    match bytes {
        [high, low, rest @ ..] => match (hex_value(*high), hex_value(*low)) {
            (Some(high), Some(low)) => Some((high * 16 + low, rest)),
            _ => None,
        },
        _ => None,
    }
}

// The byte of one to three octal digits, as many as there are.
#[tactic(auto, unfolding(crate::specs::Grammar::octal_at))]
fn octal_at(bytes: &[u8]) -> Option<(u8, &[u8])>
    ensures { Finds (λ x. (x.0, x.1.now)) result (octal_at bytes.now) }
{
    let front = &bytes[..bytes.len().min(3)];
    let (digits, _) = front.split_at(octal_len(front));
    let value = number_up_to(8, digits);
    if value > 255 {
        return None;
    }
    Some((value as u8, &bytes[digits.len()..]))
}

// The byte that a letter or a mark stands for behind a backslash.
#[tactic(auto, unfolding(crate::specs::Grammar::escaped_of))]
fn escaped_of(b: u8) -> Option<u8>
    ensures { result ≡ escaped_of b }
{
    match b {
        b'a' => Some(7),
        b'b' => Some(8),
        b'f' => Some(12),
        b'n' => Some(10),
        b'r' => Some(13),
        b't' => Some(9),
        b'v' => Some(11),
        b'\\' | b'"' | b'\'' => Some(b),
        _ => None,
    }
}

// The byte that an escape stands for, its backslash being passed.
#[tactic(auto, unfolding(crate::specs::Grammar::escape_at))]
fn escape_at(bytes: &[u8]) -> Option<(u8, &[u8])>
    ensures { Finds (λ x. (x.0, x.1.now)) result (escape_at bytes.now) }
{
    match bytes {
        [] => None,
        [b, ..] if is_octal_digit(*b) => octal_at(bytes),
        [b'x', rest @ ..] => hex_at(rest),
        [b, rest @ ..] => match escaped_of(*b) {
            Some(c) => Some((c, rest)),
            None => None,
        },
    }
}

// A byte of a string.
#[tactic(auto, unfolding(crate::specs::Grammar::byte_at))]
fn byte_at(bytes: &[u8]) -> Option<(u8, &[u8])>
    ensures { Finds (λ x. (x.0, x.1.now)) result (byte_at bytes.now) }
{
    match bytes {
        [] => None,
        [b'\\', rest @ ..] => escape_at(rest),
        [b, rest @ ..] => Some((*b, rest)),
    }
}

// The bytes of a string up to its closing quote, the opening one being passed.
pub fn string_at(alloc: Global, bytes: &[u8]) -> Result<(Vec<u8>, &[u8]), LineFault>
    ensures { Gives (λ x. (x.0.items, x.1.now)) result (string_at (length bytes.now) bytes.now) }
{
    let mut string = Vec::new(alloc);
    let mut rest = bytes;
    // Each byte of the string takes a byte at least.
    for _ in 0..bytes.len() {
        if let Some(after) = past(b'"', rest) {
            return Ok((string, after));
        }
        match byte_at(rest) {
            Some((b, after)) => {
                string.push(b)?;
                rest = after;
            }
            None => return Err(LineFault::NoForm),
        }
    }
    Err(LineFault::NoForm)
}
