//! The expansion of a token, by a list of the macros that it is inside of.

ghost use Rattle.std.specs.Prelude.{◌≡◌, ℕ, ◌≤◌, OnOk};
ghost use Rattle.c_prep.specs.Macros.{expansion};

use crate::output::Output;
use crate::same::copied;
use crate::table::Table;
use c_syntax::{Kind, Raw, RawKind};
use std::alloc::{AllocError, Global};
use std::collections::VecDeque;

/// A macro that is being expanded; its name is kept no more meanwhile.
#[derive(Clone, Copy)]
pub struct Frame<'t> {
    pub name: &'t [u8],
    pub body: &'t [Raw],
    /// The tokens that are still to be expanded.
    pub rest: &'t [Raw],
}

ghost use Rattle.c_prep.specs.Views.{macros_of, size_of, Adds};
ghost use Rattle.c_prep.specs.Frames.{Taken, TakenName, Advances};

// Begins a macro, if a name is one, or else gives the token.
fn take_name<'t>(
    alloc: Global,
    table: &mut Table<'t>,
    out: &mut Output,
    frames: &mut VecDeque<Frame<'t>>,
    name: &'t [u8],
    kind: &'t RawKind,
    pos: u32,
) -> Result<(), AllocError>
    ensures { OnOk result (TakenName name.now (macros_of table.old name.now) kind.now pos table.old table.new frames.old.items frames.new.items out.old out.new) }
{
    match table.remove(name) {
        Some(body) => {
            out.replace();
            frames.push_front(Frame {
                name,
                body,
                rest: body,
            })?;
            Ok(())
        }
        None => {
            out.give(copied(alloc, kind)?, pos)?;
            Ok(())
        }
    }
}

// Begins a macro, if the token is one, or else gives it.
fn take<'t>(
    alloc: Global,
    table: &mut Table<'t>,
    out: &mut Output,
    frames: &mut VecDeque<Frame<'t>>,
    kind: &'t RawKind,
    pos: u32,
) -> Result<(), AllocError>
    ensures { OnOk result (Taken kind.now pos table.old table.new frames.old.items frames.new.items out.old out.new) }
{
    match kind {
        RawKind::Plain(Kind::Name(name)) => {
            take_name(alloc, table, out, frames, name.as_bytes(), kind, pos)
        }
        _ => {
            out.give(copied(alloc, kind)?, pos)?;
            Ok(())
        }
    }
}

// The next token of a macro, unless nothing is to be given any more, and the macro behind it.
fn advance<'t>(frame: Frame<'t>, over: bool) -> Option<(&'t Raw, Frame<'t>)>
    ensures { Advances frame.entry over result }
{
    if over {
        return None;
    }
    match frame.rest {
        [] => None,
        [next, rest @ ..] => {
            let frame = Frame {
                name: frame.name,
                body: frame.body,
                rest,
            };
            Some((next, frame))
        }
    }
}

/// Gives what a token stands for. Once the output is too large, the rest is passed over.
pub fn expand<'t>(
    alloc: Global,
    table: &mut Table<'t>,
    out: &mut Output,
    raw: &'t Raw,
) -> Result<(), AllocError>
    ensures macros { OnOk result (macros_of table.new ≡ macros_of table.old) }
    ensures size { OnOk result (size_of table.new ≤ size_of table.old) }
    ensures acts { OnOk result ((most : ℕ) → size_of table.old ≤ most → Adds out.old out.new (expansion most (macros_of table.old) raw.now.pos raw.now.kind)) }
{
    let mut frames = VecDeque::new(alloc);
    take(alloc, table, out, &mut frames, &raw.kind, raw.pos)?;
    while let Some(frame) = frames.pop_front() {
        let Some((next, behind)) = advance(frame, out.is_over()) else {
            table.keep(frame.name, frame.body)?;
            continue;
        };
        frames.push_front(behind)?;
        take(alloc, table, out, &mut frames, &next.kind, raw.pos)?;
    }
    Ok(())
}
