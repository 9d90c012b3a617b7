// The code of a function.
ghost use Rattle.std.specs.Prelude.{◌≡◌, [], length, map, OnOk};
ghost use Rattle.wasm_bytes.specs.Piece.{piece, view_window};
ghost use Rattle.wasm_bin.specs.Opcode.{coded};
ghost use Rattle.wasm_bin.specs.Parts.{function_of};
ghost use Rattle.wasm_bin.specs.Entry.{list_at};
ghost use Rattle.wasm_bytes.specs.Number.{u32_at};
ghost use Rattle.wasm_bin.specs.Body.{block_type_at, table_at, access_at, plain_of, operands_at, may_have_else, outer, blocks_after, opcode_at, is_last, code_at, runs_at, locals_at, sized_at, function_at, body_at};
ghost use Rattle.wasm_bytes.specs.Outcome.{Gives};

use crate::decode::Decode;
use crate::entry::value_type;
use crate::module::{Body, Instr, MemArg};
use crate::opcode::{
    access, arithmetic, block, compares, comparison, computes, control, has_access, has_index,
    indexed, is_known, opens, sizes, sizing,
};
use std::alloc::{AllocError, Global};
use wasm_bytes::cursor::{Cursor, Window, byte, closed, cut, expected, offset};
use wasm_bytes::fault::ModFault;
use wasm_bytes::items::Items;
use wasm_bytes::number::{integer, limited, unsigned};

/// The greatest number of blocks within one another.
const DEEPEST: usize = 1_048_576;

// Takes the type of a block: whether it gives a value.
#[tactic(auto, unfolding(crate::specs::Body::block_type_at))]
fn block_type(c: Cursor<'_>) -> Result<(bool, Cursor<'_>), ModFault>
    ensures { Gives (λ x. (x.0, piece x.1)) result (block_type_at (piece c.entry)) }
{
    let (found, rest) = byte(c)?;
    if found == 0x40 {
        Ok((false, rest))
    } else {
        Ok((true, value_type(c)?))
    }
}

// Takes the labels of a `br_table`.
#[tactic(auto, unfolding(crate::specs::Body::table_at))]
fn table(alloc: Global, c: Cursor<'_>) -> Result<(Instr, Cursor<'_>), ModFault>
    ensures { Gives (λ x. (coded x.0, piece x.1)) result (table_at (piece c.entry)) }
{
    let (labels, rest) = Vec::<u32>::decode(alloc, c)?;
    let (label, rest) = unsigned(rest)?;
    Ok((Instr::BrTable(Items::of(labels), label), rest))
}

// Takes the operands of an access to memory.
#[tactic(auto, unfolding(crate::specs::Body::access_at))]
fn mem_arg(c: Cursor<'_>) -> Result<(MemArg, Cursor<'_>), ModFault>
    ensures { Gives (λ x. (x.0, piece x.1)) result (access_at (piece c.entry)) }
{
    let (align, rest) = unsigned(c)?;
    let (offset, rest) = unsigned(rest)?;
    Ok((MemArg { align, offset }, rest))
}

// The instruction without operands, where the opcode at the place has one.
#[tactic(auto, unfolding(crate::specs::Body::plain_of))]
fn plain(at: u32, opcode: u8) -> Result<Instr, ModFault>
    ensures { Gives coded result (plain_of at opcode) }
{
    if opcode == 0x05 {
        Ok(Instr::Else)
    } else if compares(opcode) {
        Ok(comparison(opcode))
    } else if computes(opcode) {
        Ok(arithmetic(opcode))
    } else if let Some(instr) = control(opcode) {
        Ok(instr)
    } else if is_known(opcode) {
        Err(ModFault::Unsupported(at))
    } else {
        Err(ModFault::Malformed(at))
    }
}

// Takes the operands of an opcode that stands at the place.
#[tactic(auto, unfolding(crate::specs::Body::operands_at))]
fn operands(
    alloc: Global,
    at: u32,
    opcode: u8,
    c: Cursor<'_>,
) -> Result<(Instr, Cursor<'_>), ModFault>
    ensures { Gives (λ x. (coded x.0, piece x.1)) result (operands_at at opcode (piece c.entry)) }
{
    if opens(opcode) {
        let (gives, rest) = block_type(c)?;
        Ok((block(opcode, gives), rest))
    } else if has_index(opcode) {
        let (index, rest) = unsigned(c)?;
        Ok((indexed(opcode, index), rest))
    } else if has_access(opcode) {
        let (m, rest) = mem_arg(c)?;
        Ok((access(opcode, m), rest))
    } else if sizes(opcode) {
        let rest = expected(0, c)?;
        Ok((sizing(opcode), rest))
    } else if opcode == 0x0E {
        table(alloc, c)
    } else if opcode == 0x41 {
        let (value, rest) = integer(c)?;
        Ok((Instr::Const(value), rest))
    } else {
        Ok((plain(at, opcode)?, c))
    }
}

// Whether the innermost block may have an `else`.
fn may_have_else(blocks: &[bool]) -> bool
    ensures { result ≡ may_have_else blocks.now }
{
    blocks.last().copied().unwrap_or(false)
}

// Takes an opcode within these blocks.
#[tactic(auto, unfolding(crate::specs::Body::opcode_at))]
fn opcode<'b>(blocks: &[bool], c: Cursor<'b>) -> Result<(u8, Cursor<'b>), ModFault>
    ensures { Gives (λ x. (x.0, piece x.1)) result (opcode_at blocks.now (piece c.entry)) }
{
    let (found, rest) = byte(c)?;
    if opens(found) {
        if blocks.len() >= DEEPEST {
            return Err(ModFault::TooLarge(offset(c)));
        }
    } else if found == 0x05 && !may_have_else(blocks) {
        return Err(ModFault::Malformed(offset(c)));
    }
    Ok((found, rest))
}

// Opens and closes blocks, as an opcode does.
#[tactic(auto, unfolding(crate::specs::Body::blocks_after))]
fn nest(blocks: &mut Vec<bool>, opcode: u8) -> Result<(), AllocError>
    ensures { OnOk result (blocks.new.items ≡ blocks_after opcode blocks.old.items) }
{
    if opens(opcode) {
        blocks.push(opcode == 0x04)?;
    } else if opcode == 0x05 {
        blocks.pop();
        blocks.push(false)?;
    } else if opcode == 0x0B {
        blocks.pop();
    }
    Ok(())
}

// Whether this is the `end` of the body.
fn ends_body(blocks: &[bool], opcode: u8) -> bool
    ensures { result ≡ is_last blocks.now opcode }
{
    opcode == 0x0B && blocks.is_empty()
}

// Takes instructions up to the `end` of the body.
fn code(alloc: Global, c: Cursor<'_>) -> Result<(Vec<Instr>, Cursor<'_>), ModFault>
    ensures { Gives (λ x. (map coded x.0.items, piece x.1)) result (code_at (length c.entry.left.now) [] (piece c.entry)) }
{
    let mut around = Vec::new(alloc);
    let mut code = Vec::new(alloc);
    let mut rest = c;
    for _ in 0..c.left.len() {
        let (opcode, behind) = opcode(&around, rest)?;
        let (instr, after) = operands(alloc, offset(rest), opcode, behind)?;
        let last = ends_body(&around, opcode);
        nest(&mut around, opcode)?;
        code.push(instr)?;
        rest = after;
        if last {
            return Ok((code, rest));
        }
    }
    Err(ModFault::Malformed(offset(rest)))
}

// Takes so many runs of locals, for which there is so much room, and gives their number.
fn runs(count: u32, room: u32, c: Cursor<'_>) -> Result<(u32, Cursor<'_>), ModFault>
    ensures { Gives (λ x. (x.0, piece x.1)) result (runs_at count room (piece c.entry)) }
{
    let mut locals = 0u32;
    let mut rest = c;
    for _ in 0..count {
        let (more, behind) = limited(room - locals, rest)?;
        rest = value_type(behind)?;
        locals += more;
    }
    Ok((locals, rest))
}

// Takes the locals of a function of so many parameters.
#[tactic(auto, unfolding(crate::specs::Body::locals_at))]
fn locals(params: u32, c: Cursor<'_>) -> Result<(u32, Cursor<'_>), ModFault>
    ensures { Gives (λ x. (x.0, piece x.1)) result (locals_at params (piece c.entry)) }
{
    let (count, rest) = unsigned(c)?;
    runs(count, 65_536u32.saturating_sub(params), rest)
}

/// Takes a size, and gives the piece of this size.
#[tactic(auto, unfolding(crate::specs::Body::sized_at))]
pub fn sized(c: Cursor<'_>) -> Result<Window<'_>, ModFault>
    ensures { Gives view_window result (sized_at (piece c.entry)) }
{
    let (size, rest) = unsigned(c)?;
    Ok(cut(size, rest))
}

// Takes the locals and the instructions of a function of so many parameters.
#[tactic(auto, unfolding(crate::specs::Body::function_at))]
fn function(alloc: Global, params: u32, c: Cursor<'_>) -> Result<(Body, Cursor<'_>), ModFault>
    ensures { Gives (λ x. (function_of x.0, piece x.1)) result (function_at params (piece c.entry)) }
{
    let (locals, rest) = locals(params, c)?;
    let (code, rest) = code(alloc, rest)?;
    let code = Items::of(code);
    Ok((Body { locals, code }, rest))
}

/// Takes the body of a function of so many parameters.
#[tactic(auto, unfolding(crate::specs::Body::body_at))]
pub fn body(alloc: Global, params: u32, c: Cursor<'_>) -> Result<(Body, Cursor<'_>), ModFault>
    ensures { Gives (λ x. (function_of x.0, piece x.1)) result (body_at params (piece c.entry)) }
{
    let window = sized(c)?;
    let (body, rest) = function(alloc, params, window.inside)?;
    let rest = closed(window, rest)?;
    Ok((body, rest))
}
