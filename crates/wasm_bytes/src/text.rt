// Runs of bytes, and names.
ghost use Rattle.std.specs.Prelude.{◌≡◌};
ghost use Rattle.std.specs.Str.{is_utf8};
ghost use Rattle.wasm_bytes.specs.Piece.{piece};
ghost use Rattle.wasm_bytes.specs.Text.{taken_at, bytes_at, name_at};
ghost use Rattle.wasm_bytes.specs.Outcome.{Gives};

use crate::cursor::{Cursor, offset};
use crate::fault::ModFault;
use crate::items::Items;
use crate::number::unsigned;
use std::alloc::Global;

// Takes so many bytes.
#[tactic(auto, unfolding(crate::specs::Text::taken_at))]
fn taken(len: u32, c: Cursor<'_>) -> Result<(&[u8], Cursor<'_>), ModFault>
    ensures { Gives (λ x. (x.0.now, piece x.1)) result (taken_at len (piece c.entry)) }
{
    let len = len as usize;
    if c.left.len() < len {
        return Err(ModFault::Malformed(c.end));
    }
    let (bytes, left) = c.left.split_at(len);
    Ok((bytes, Cursor { left, end: c.end }))
}

// Whether the bytes are UTF-8.
fn is_text(bytes: &[u8]) -> bool
    ensures { result ≡ is_utf8 bytes.now }
{
    std::str::from_utf8(bytes).is_ok()
}

/// Takes bytes, whose number comes first.
#[tactic(auto, unfolding(crate::specs::Text::bytes_at))]
pub fn bytes(alloc: Global, c: Cursor<'_>) -> Result<(Items<u8>, Cursor<'_>), ModFault>
    ensures { Gives (λ x. (x.0, piece x.1)) result (bytes_at (piece c.entry)) }
{
    let (len, rest) = unsigned(c)?;
    let (bytes, rest) = taken(len, rest)?;
    let bytes = Items::of(Vec::from_slice(alloc, bytes)?);
    Ok((bytes, rest))
}

/// Takes a name, whose number of bytes comes first.
#[tactic(auto, unfolding(crate::specs::Text::name_at))]
pub fn name(alloc: Global, c: Cursor<'_>) -> Result<(Items<u8>, Cursor<'_>), ModFault>
    ensures { Gives (λ x. (x.0, piece x.1)) result (name_at (piece c.entry)) }
{
    let (len, start) = unsigned(c)?;
    let (name, rest) = taken(len, start)?;
    if !is_text(name) {
        return Err(ModFault::Malformed(offset(start)));
    }
    let name = Items::of(Vec::from_slice(alloc, name)?);
    Ok((name, rest))
}
