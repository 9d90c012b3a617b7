// Code with its tables.

ghost use Rattle.std.specs.Prelude.{◌≡◌, ◌<◌, ◌^◌, vec_len, take, drop, slice_get, IsSome};
ghost use Rattle.std.specs.Option.{option_map};

use crate::instruction::{Instruction, Span};
use c_store::{Cell, Kind, Literal, Value};

/// A function that has code: where it begins, how many parameters it has, the kind to which its result converts, and
/// the charge of a call.
#[derive(Clone, Copy)]
pub struct Entry {
    pub at: u32,
    pub params: u32,
    pub result: Kind,
    pub charge: u32,
}

/// The code of a whole text.
#[derive(Drop)]
pub struct Plain {
    pub instructions: Vec<Instruction>,
    /// What is pushed: pointers to file-scope objects, to literals and functions, null, and no value.
    pub constants: Vec<Value>,
    /// Kinds of arguments and of cells.
    pub kinds: Vec<Kind>,
    /// Lengths of objects.
    pub lengths: Vec<u32>,
    /// Bytes of strings that are first values.
    pub bytes: Vec<u8>,
    /// The functions by number; one that is only known or declared has no code.
    pub functions: Vec<Option<Entry>>,
    /// The string literals.
    pub literals: Vec<Literal>,
    /// The objects of file scope.
    pub objects: Vec<Vec<Cell>>,
    /// The number of `main`.
    pub main: u32,
    pub ghost few: { vec_len instructions < 2 ^ 32 },
}

// The entries of a table that a span tells.
fn in_span<T>(table: &[T], span: Span) -> &[T]
    ensures { result.now ≡ take span.count (drop span.first table.now) }
{
    let first = span.first as usize;
    let count = span.count as usize;
    let rest = if first < table.len() {
        &table[first..]
    } else {
        &table[table.len()..]
    };
    if count < rest.len() {
        &rest[..count]
    } else {
        rest
    }
}

impl Plain {
    ghost use Rattle.c_store.specs.Shown.{value_of};
    ghost use Rattle.c_plain.specs.Program.{program_of, in_span};
    ghost use Rattle.c_plain.specs.Rule.{entry_of};

    /// The instruction of a number.
    #[inline(always)]
    pub fn instruction(&self, at: usize) -> Option<Instruction>
        ensures there { result ≡ slice_get (program_of self.now).instructions at }
        ensures few { IsSome result → at < 2 ^ 32 }
    {
        self.instructions.get(at).copied()
    }

    /// The constant of a number.
    #[inline(always)]
    pub fn constant(&self, number: u32) -> Option<Value>
        ensures { option_map value_of result ≡ slice_get (program_of self.now).constants number }
    {
        self.constants.get(number as usize).copied()
    }

    /// The entry of the function of a number, where it has code.
    #[inline(always)]
    pub fn entry(&self, function: u32) -> Option<Entry>
        ensures { result ≡ entry_of (program_of self.now) function }
    {
        match self.functions.get(function as usize) {
            Some(entry) => *entry,
            None => None,
        }
    }

    /// The kinds that a span tells.
    #[inline(always)]
    pub fn kinds(&self, span: Span) -> &[Kind]
        ensures { result.now ≡ in_span (program_of self.now).kinds span }
    {
        in_span(&self.kinds, span)
    }

    /// The lengths that a span tells.
    #[inline(always)]
    pub fn lengths(&self, span: Span) -> &[u32]
        ensures { result.now ≡ in_span (program_of self.now).lengths span }
    {
        in_span(&self.lengths, span)
    }

    /// The bytes that a span tells.
    #[inline(always)]
    pub fn bytes(&self, span: Span) -> &[u8]
        ensures { result.now ≡ in_span (program_of self.now).bytes span }
    {
        in_span(&self.bytes, span)
    }
}
