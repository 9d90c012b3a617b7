// What is read from its binary form.
ghost use Rattle.std.specs.Prelude.{◌≡◌, map};
ghost use Rattle.wasm_bytes.specs.Piece.{Reading, piece};
ghost use Rattle.wasm_bin.specs.Entry.{list_at};
ghost use Rattle.wasm_bytes.specs.Outcome.{Gives};

use std::alloc::Global;
use wasm_bytes::cursor::Cursor;
use wasm_bytes::fault::ModFault;
use wasm_bytes::number::{limited, unsigned};

/// The greatest number of entries.
const LONGEST: u32 = 1_048_576;

/// What is read from its binary form.
pub trait Decode: Drop {
    /// The type of what a definition sees of it.
    ghost Seen: { Type 0 };

    /// What a definition sees of it.
    ghost seen: { Self → Seen };

    /// How it is read.
    ghost reading: { Reading Seen };

    /// Takes one.
    fn decode(alloc: Global, c: Cursor<'_>) -> Result<(Self, Cursor<'_>), ModFault>
        ensures { Gives (λ x. (seen x.0, piece x.1)) result (reading (piece c.entry)) };
}

// Takes a list, whose number of entries comes first: 2^20 at most.
fn list<T: Decode>(alloc: Global, c: Cursor<'_>) -> Result<(Vec<T>, Cursor<'_>), ModFault>
    ensures { Gives (λ x. (map T.seen x.0.items, piece x.1)) result (list_at T.reading (piece c.entry)) }
{
    let (count, start) = limited(LONGEST, c)?;
    let mut list = Vec::new(alloc);
    let mut rest = start;
    for _ in 0..count {
        let (entry, after) = T::decode(alloc, rest)?;
        list.push(entry)?;
        rest = after;
    }
    Ok((list, rest))
}

/// A number, and so many of these.
impl<T: Decode> Decode for Vec<T> {
    ghost use Rattle.std.specs.Prelude.{List, map};
    ghost use Rattle.wasm_bin.specs.Entry.{list_at};

    ghost Seen = { List T.Seen };

    ghost seen = { λ xs. map T.seen xs.items };

    ghost reading = { list_at T.reading };

    fn decode(alloc: Global, c: Cursor<'_>) -> Result<(Vec<T>, Cursor<'_>), ModFault> {
        list(alloc, c)
    }
}

impl Decode for u32 {
    ghost use Rattle.std.specs.Prelude.{ℕ};
    ghost use Rattle.wasm_bytes.specs.Number.{u32_at};

    ghost Seen = { ℕ };

    ghost seen = { λ n. n };

    ghost reading = { u32_at };

    fn decode(_alloc: Global, c: Cursor<'_>) -> Result<(u32, Cursor<'_>), ModFault> {
        unsigned(c)
    }
}
