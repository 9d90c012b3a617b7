// Entries of tables.

ghost use Rattle.std.specs.Prelude.{◌≡◌, ◌+◌, ◌++◌, ◌∷◌, [], length, Some, slice_get, IfOk, OnOk, OnErr};
ghost use Rattle.c_store.specs.Values as values;
ghost use Rattle.c_emitted.specs.Emits.{tables_of, Emits, SpanIs};

use crate::emitter::Emitter;
use crate::number::number_of;
use c_plain::Span;
use c_store::{Kind, Literal};
use std::alloc::AllocError;

// An entry more, which gets this number. An error changes nothing.
pub fn push_entry<T: Copy>(table: &mut Vec<T>, entry: T) -> Result<u32, AllocError>
    ensures ok { OnOk result (table.new.items ≡ table.old.items ++ entry ∷ []) }
    ensures number { IfOk result (λ n. n ≡ length table.old.items) }
    ensures err { OnErr result (table.new.items ≡ table.old.items) }
{
    let number = number_of(table.len())?;
    table.push(entry)?;
    Ok(number)
}

// Entries more, and which ones they are. An error changes nothing.
pub fn push_entries<T: Copy>(table: &mut Vec<T>, entries: &[T]) -> Result<Span, AllocError>
    ensures ok { OnOk result (table.new.items ≡ table.old.items ++ entries.now) }
    ensures first { IfOk result (λ s. s.first ≡ length table.old.items) }
    ensures count { IfOk result (λ s. s.count ≡ length entries.now) }
    ensures err { OnErr result (table.new.items ≡ table.old.items) }
{
    let first = number_of(table.len())?;
    let count = number_of(entries.len())?;
    table.extend_from_slice(entries)?;
    Ok(Span { first, count })
}

impl<'t> Emitter<'t> {
    /// Kinds, in the table of kinds.
    pub fn kinds(&mut self, kinds: &[Kind]) -> Result<Span, AllocError>
        ensures emits { OnOk result (Emits self.old self.new [] []) }
        ensures span { IfOk result (λ s. SpanIs (tables_of self.new) (λ p. p.kinds) s kinds.now) }
    {
        push_entries(&mut self.kinds, kinds)
    }

    /// Lengths of objects, in the table of lengths.
    pub fn lengths(&mut self, lengths: &[u32]) -> Result<Span, AllocError>
        ensures emits { OnOk result (Emits self.old self.new [] []) }
        ensures span { IfOk result (λ s. SpanIs (tables_of self.new) (λ p. p.lengths) s lengths.now) }
    {
        push_entries(&mut self.lengths, lengths)
    }

    /// Bytes, in the table of bytes.
    pub fn bytes(&mut self, bytes: &[u8]) -> Result<Span, AllocError>
        ensures emits { OnOk result (Emits self.old self.new [] []) }
        ensures span { IfOk result (λ s. SpanIs (tables_of self.new) (λ p. p.bytes) s bytes.now) }
    {
        push_entries(&mut self.bytes, bytes)
    }

    /// The number of a function's name.
    pub fn name_number(&mut self, name: &'t [u8]) -> Result<u32, AllocError>
        ensures emits { OnOk result (Emits self.old self.new [] []) }
        ensures named { IfOk result (λ f. slice_get (tables_of self.new).names f ≡ Some name.now) }
    {
        let (number, _) = self.names.insert_full(name)?;
        number_of(number)
    }

    /// The number of the next string literal.
    pub fn literal(&mut self, text: &[u8]) -> Result<u32, AllocError>
        ensures emits { OnOk result (Emits self.old self.new [] (text.now ∷ [])) }
        ensures literal { IfOk result (λ l. slice_get (tables_of self.new).literals l ≡ Some (record { owner = self.old.owner; number = self.old.before; text = text.now })) }
    {
        let bytes = Vec::from_slice(self.alloc, text)?;
        let literal = Literal::new(self.owner, self.before, bytes)?;
        let next = number_of(self.before as usize + 1)?;
        let number = number_of(self.literals.len())?;
        self.literals.push(literal)?;
        self.before = next;
        Ok(number)
    }
}
