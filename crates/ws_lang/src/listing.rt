// The instructions of a text, with the places where they begin.
ghost use Rattle.std.specs.Prelude.{◌≤◌, ◌^◌, length, map, MatchResult};
ghost use Rattle.ws_lang.specs.Refusal.{IsRefused};
ghost use Rattle.ws_lang.specs.OpInstruction.{instruction_of};
ghost use Rattle.ws_lang.specs.Listing.{IsListing};

use crate::cursor::Cursor;
use crate::fault::WsFault;
use crate::instruction::Op;
use crate::read::read_op;
use std::alloc::Global;

/// The instructions of a text, with the places where they begin.
#[derive(Drop)]
pub struct Listing {
    pub ops: Vec<Op>,
    pub starts: Vec<u32>,
}

/// Reads the instructions of a text.
pub fn read_listing(alloc: Global, text: &[u8]) -> Result<Listing, WsFault>
    requires { length text.now ≤ 2 ^ 29 }
    ensures { MatchResult result (λ listing. IsListing text.now (map instruction_of listing.ops.items) listing.starts.items) (IsRefused text.now) }
{
    let mut cursor = Cursor { text, at: 0 };
    let mut ops = Vec::new(alloc);
    let mut starts = Vec::new(alloc);
    while cursor.skip_comments() {
        let start = cursor.at as u32;
        let op = read_op(alloc, &mut cursor, start)?;
        ops.push(op)?;
        starts.push(start)?;
    }
    Ok(Listing { ops, starts })
}
