// The sections of a module.
ghost use Rattle.std.specs.Prelude.{◌≡◌, map, length};
ghost use Rattle.wasm_bytes.specs.Piece.{piece, view_window};
ghost use Rattle.wasm_bin.specs.Parts.{function_of};
ghost use Rattle.wasm_bin.specs.Section.{custom_at, customs_at, past_customs, opened_at, view_opened, contents_at, section_at, other_at, params_of, each_body_at, bodies_at, code_section_at, end_at, header_at};
ghost use Rattle.wasm_bytes.specs.Outcome.{Gives};

use crate::decode::Decode;
use crate::func::{body, sized};
use crate::module::{Body, FuncType};
use std::alloc::Global;
use wasm_bytes::cursor::{Cursor, Window, closed, expected, offset, starts};
use wasm_bytes::fault::ModFault;
use wasm_bytes::number::unsigned;
use wasm_bytes::text::name;

// Passes a custom section, whose name must be UTF-8.
#[tactic(auto, unfolding(crate::specs::Section::custom_at))]
fn custom(alloc: Global, c: Cursor<'_>) -> Result<Cursor<'_>, ModFault>
    ensures { Gives piece result (custom_at (piece c.entry)) }
{
    let front = expected(0, c)?;
    let window = sized(front)?;
    name(alloc, window.inside)?;
    if window.whole {
        Ok(window.behind)
    } else {
        Err(ModFault::Malformed(window.inside.end))
    }
}

// Passes custom sections.
fn customs(alloc: Global, c: Cursor<'_>) -> Result<Cursor<'_>, ModFault>
    ensures { Gives piece result (past_customs (piece c.entry)) }
{
    let mut rest = c;
    for _ in 0..c.left.len() {
        if !starts(0, rest) {
            return Ok(rest);
        }
        rest = custom(alloc, rest)?;
    }
    Ok(rest)
}

// Opens the section of this number, where it comes next.
#[tactic(auto, unfolding(crate::specs::Section::opened_at))]
fn opened(id: u8, c: Cursor<'_>) -> Result<Option<Window<'_>>, ModFault>
    ensures { Gives view_opened result (opened_at id (piece c.entry)) }
{
    if starts(id, c) {
        let rest = expected(id, c)?;
        Ok(Some(sized(rest)?))
    } else {
        Ok(None)
    }
}

/// The index of the function that runs first.
impl Decode for Option<u32> {
    ghost use Rattle.std.specs.Prelude.{ℕ, Option};
    ghost use Rattle.wasm_bin.specs.Section.{start_at};

    ghost Seen = { Option ℕ };

    ghost seen = { λ index. index };

    ghost reading = { start_at };

    #[tactic(auto, unfolding(crate::specs::Section::start_at))]
    fn decode(_alloc: Global, c: Cursor<'_>) -> Result<(Option<u32>, Cursor<'_>), ModFault> {
        let (index, rest) = unsigned(c)?;
        Ok((Some(index), rest))
    }
}

/// Passes custom sections, and takes the section of this number, where it comes: its contents, or what stands for none.
pub fn section<T: Decode>(
    alloc: Global,
    id: u8,
    absent: T,
    c: Cursor<'_>,
) -> Result<(T, Cursor<'_>), ModFault>
    ensures { Gives (λ x. (T.seen x.0, piece x.1)) result (section_at id T.reading (T.seen absent) (piece c.entry)) }
{
    let c = customs(alloc, c)?;
    match opened(id, c)? {
        Some(window) => {
            let (contents, rest) = T::decode(alloc, window.inside)?;
            let rest = closed(window, rest)?;
            Ok((contents, rest))
        }
        None => Ok((absent, c)),
    }
}

/// Passes custom sections, where no section of this number comes next.
#[tactic(auto, unfolding(crate::specs::Section::other_at))]
pub fn other(alloc: Global, id: u8, c: Cursor<'_>) -> Result<Cursor<'_>, ModFault>
    ensures { Gives piece result (other_at id (piece c.entry)) }
{
    let c = customs(alloc, c)?;
    if starts(id, c) {
        Err(ModFault::Unsupported(offset(c)))
    } else {
        Ok(c)
    }
}

// How many parameters the type with this index has; 0 where there is no such type.
fn params(types: &[FuncType], kind: u32) -> u32
    ensures { result ≡ params_of types.now kind }
{
    match types.get(kind as usize) {
        Some(kind) => kind.params,
        None => 0,
    }
}

// Takes the body of each function.
fn each_body<'b>(
    alloc: Global,
    types: &[FuncType],
    funcs: &[u32],
    c: Cursor<'b>,
) -> Result<(Vec<Body>, Cursor<'b>), ModFault>
    ensures { Gives (λ x. (map function_of x.0.items, piece x.1)) result (each_body_at (map (params_of types.now) funcs.now) (piece c.entry)) }
{
    let mut list = Vec::new(alloc);
    let mut rest = c;
    for kind in funcs {
        let (entry, after) = body(alloc, params(types, *kind), rest)?;
        list.push(entry)?;
        rest = after;
    }
    Ok((list, rest))
}

// Takes the number of the functions, and their bodies.
#[tactic(auto, unfolding(crate::specs::Section::bodies_at))]
fn bodies<'b>(
    alloc: Global,
    types: &[FuncType],
    funcs: &[u32],
    c: Cursor<'b>,
) -> Result<(Vec<Body>, Cursor<'b>), ModFault>
    ensures { Gives (λ x. (map function_of x.0.items, piece x.1)) result (bodies_at types.now funcs.now (piece c.entry)) }
{
    let (count, rest) = unsigned(c)?;
    if count as usize == funcs.len() {
        each_body(alloc, types, funcs, rest)
    } else {
        Err(ModFault::Malformed(offset(c)))
    }
}

/// Takes section 10, which may be missing where there is no function.
#[tactic(auto, unfolding(crate::specs::Section::code_section_at))]
pub fn code_section<'b>(
    alloc: Global,
    types: &[FuncType],
    funcs: &[u32],
    c: Cursor<'b>,
) -> Result<(Vec<Body>, Cursor<'b>), ModFault>
    ensures { Gives (λ x. (map function_of x.0.items, piece x.1)) result (code_section_at types.now funcs.now (piece c.entry)) }
{
    let c = customs(alloc, c)?;
    match opened(10, c)? {
        Some(window) => {
            let (list, rest) = bodies(alloc, types, funcs, window.inside)?;
            let rest = closed(window, rest)?;
            Ok((list, rest))
        }
        None if funcs.is_empty() => Ok((Vec::new(alloc), c)),
        None => Err(ModFault::Malformed(offset(c))),
    }
}

/// Passes custom sections up to the end of the file.
#[tactic(auto, unfolding(crate::specs::Section::end_at))]
pub fn end(alloc: Global, c: Cursor<'_>) -> Result<Cursor<'_>, ModFault>
    ensures { Gives piece result (end_at (piece c.entry)) }
{
    let c = customs(alloc, c)?;
    if c.left.is_empty() {
        Ok(c)
    } else {
        Err(ModFault::Malformed(offset(c)))
    }
}

/// Takes the magic bytes and the version.
#[tactic(auto, unfolding(crate::specs::Section::header_at))]
pub fn header(c: Cursor<'_>) -> Result<Cursor<'_>, ModFault>
    ensures { Gives piece result (header_at (piece c.entry)) }
{
    let c = expected(0x00, c)?;
    let c = expected(0x61, c)?;
    let c = expected(0x73, c)?;
    let c = expected(0x6D, c)?;
    let c = expected(0x01, c)?;
    let c = expected(0x00, c)?;
    let c = expected(0x00, c)?;
    expected(0x00, c)
}
