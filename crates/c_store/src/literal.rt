// String literals.

ghost use Rattle.std.specs.Prelude.{◌≡◌, ◌+◌, ◌∷◌, ◌++◌, [], ◌==◌, ◌&&◌, ◌<◌, ◌^◌, ◌↔◌, length, vec_len, slice_get, IfOk, IsOk};
ghost use Rattle.std.specs.Option.{option_map};

use std::alloc::AllocError;
use std::marker::Model;
use word24::Word;

/// A string literal: the function in which it stands (0 at file scope), how many stand before it there, and its text.
#[derive(Drop)]
pub struct Literal {
    owner: u32,
    number: u32,
    text: Vec<u8>,
}

impl Model for Literal {
    ghost use Rattle.std.specs.Prelude.{◌+◌, ◌<◌, ◌^◌, vec_len};
    ghost use Rattle.c_store.specs.Values as values;

    ghost Value = { values.Literal };

    ghost view = { λ l. record { owner = l.owner; number = l.number; text = l.text.items } };

    ghost invariant = { λ l. vec_len l.text + 1 < 2 ^ 32 };
}

impl Literal {
    ghost use Rattle.word24.specs.Word.{number_of};

    /// A literal. An error says that its text is longer than 2^32 - 2 bytes.
    pub fn new(owner: u32, number: u32, text: Vec<u8>) -> Result<Literal, AllocError>
        ensures fits { IsOk result ↔ (vec_len text + 1 < 2 ^ 32) }
        ensures owner { IfOk result (λ l. l.owner ≡ owner) }
        ensures number { IfOk result (λ l. l.number ≡ number) }
        ensures text { IfOk result (λ l. l.text ≡ text.items) }
    {
        if text.len() >= 4294967295 {
            return Err(AllocError);
        }
        Ok(Literal {
            owner,
            number,
            text,
        })
    }

    /// How many cells it has: one for each byte, and one for its zero.
    #[inline(always)]
    pub fn count(&self) -> u32
        ensures { result ≡ length self.now.text + 1 }
    {
        self.text.len() as u32 + 1
    }

    /// What a cell of it holds.
    #[inline(always)]
    pub fn letter(&self, offset: u32) -> Option<Word>
        ensures { option_map number_of result ≡ slice_get (self.now.text ++ 0 ∷ []) offset }
    {
        let index = offset as usize;
        if index < self.text.len() {
            return Some(Word::wrap(u64::from(self.text[index])));
        }
        if index == self.text.len() {
            Some(Word::wrap(0))
        } else {
            None
        }
    }

    /// Whether it is the same literal as another.
    #[inline(always)]
    pub fn is_same(&self, other: &Literal) -> bool
        ensures { result ≡ ((self.now.owner == other.now.owner) && (self.now.number == other.now.number)) }
    {
        self.owner == other.owner && self.number == other.number
    }
}
