// The data words as bytes.
#![tactic(auto, using(crate::proofs::Pieces::pieces))]

ghost use Rattle.std.specs.Prelude.{◌≡◌, ◌<◌, ◌≤◌, ◌^◌, ◌++◌, length, map, OnOk, IfOk};
ghost use Rattle.std.specs.List.{flat_map};
ghost use Rattle.word24.specs.Word.{number_of};
ghost use Rattle.wasm_rule.specs.Memory.{bytes_of};
ghost use Rattle.wasm_code.specs.Emitted.{segments_for};

use std::alloc::{AllocError, Global};
use wasm_bin::Segment;
use wasm_bytes::items::Items;
use word24::Word;

// Puts the four bytes of a word behind the others, the lowest first.
fn put_word(bytes: &mut Vec<u8>, word: Word) -> Result<(), AllocError>
    ensures { OnOk result (bytes.new.items ≡ bytes.old.items ++ bytes_of 4 (number_of word)) }
{
    let number = word.get();
    bytes.push((number % 256) as u8)?;
    bytes.push((number / 256 % 256) as u8)?;
    bytes.push((number / 256 / 256 % 256) as u8)?;
    bytes.push((number / 256 / 256 / 256 % 256) as u8)?;
    Ok(())
}

// The bytes of words, one after the other.
fn bytes_for(alloc: Global, words: &[Word]) -> Result<Vec<u8>, AllocError>
    requires { length words.now ≤ 2 ^ 21 }
    ensures { IfOk result (λ bytes. bytes.items ≡ flat_map (bytes_of 4) (map number_of words.now)) }
{
    let mut bytes = Vec::with_capacity(alloc, 4 * words.len())?;
    for word in words {
        put_word(&mut bytes, *word)?;
    }
    Ok(bytes)
}

/// The data words from address 0 on, where there are any.
pub fn segments_for(alloc: Global, words: &[Word]) -> Result<Vec<Segment>, AllocError>
    requires { length words.now ≤ 2 ^ 21 }
    ensures { IfOk result (λ segments. segments.items ≡ segments_for words.now) }
{
    let mut segments = Vec::new(alloc);
    if words.is_empty() {
        return Ok(segments);
    }
    let bytes = Items::of(bytes_for(alloc, words)?);
    segments.push(Segment { offset: 0, bytes })?;
    Ok(segments)
}
