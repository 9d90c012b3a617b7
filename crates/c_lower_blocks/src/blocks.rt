// Blocks that begin and end, with their names, the numbers of their objects, and their places.

ghost use Rattle.std.specs.Prelude.{◌≤◌, ℕ, ◌+◌, [], length, IfOk, OnOk};
ghost use Rattle.c_types.specs.Scope.{entered};
ghost use Rattle.c_eval.specs.Environment.{Environment, block_objects, in_block};
ghost use Rattle.c_declared.specs.Held.{HoldsSome};
ghost use Rattle.c_lowered.specs.Locations.{Linking, with_block};
ghost use Rattle.c_lowered.specs.Statements.{words_in};
ghost use Rattle.c_counted.specs.Numbers.{IsNumber};
ghost use Rattle.c_counted.specs.Rows.{stmts_of};
ghost use Rattle.c_addressing.specs.declared.here.Here as rust;
ghost use Rattle.c_addressing.specs.Here.{IsHere, Emits};
ghost use Rattle.c_lower_blocks.specs.Blocks.{IsEntered, IsInside, AreMarks, IsSame, IsAnew};
ghost use Rattle.c_lower_blocks.specs.Standing.{Begins, StandsIn};

use crate::places::place_all;
use c_addressing::{Here, Output};
use c_syntax::tree::Stmts;
use std::alloc::AllocError;

/// The block in which statements stand: the number of its next object, and the first word of the frame behind its objects.
#[derive(Clone, Copy)]
pub struct Block {
    pub next: usize,
    pub free: u32,
}

/// What ends a block again: how many names and numbers stood around the block around it, and how many places before it.
#[derive(Clone, Copy)]
pub struct Marks {
    pub names: usize,
    pub slots: usize,
    pub bases: usize,
}

/// A block that began, and what ends it again.
#[derive(Clone, Copy)]
pub struct Begun {
    pub block: Block,
    pub marks: Marks,
}

/// A block begins. The answer ends it again.
pub fn enter(here: &mut Here<'_>) -> Marks
    ensures { IsEntered here.old here.new result }
{
    let names = here.declared.names.enter();
    let slots = here.slots.enter();
    let bases = here.bases.as_slice().len();
    Marks {
        names,
        slots,
        bases,
    }
}

/// A block ends, which began with this answer of `enter`: what is declared is what was before it, and its places go.
pub fn leave(here: &mut Here<'_>, marks: Marks) -> Result<(), AllocError>
    requires names { marks.names ≤ length here.old.declared.names.outer }
    requires slots { marks.slots ≤ length here.old.slots.outer }
    ensures { (h : rust.Here) → IsInside h here.old → AreMarks h marks → OnOk result (IsSame h here.new) }
{
    here.bases.truncate(marks.bases);
    here.declared.names.leave(marks.names)?;
    here.slots.leave(marks.slots)?;
    Ok(())
}

/// The names of a block are forgotten: it begins anew, and its objects have their places.
pub fn begin_anew(here: &mut Here<'_>, marks: Marks) -> Result<(), AllocError>
    requires { marks.names ≤ length here.old.declared.names.outer }
    ensures { OnOk result (IsAnew here.old here.new) }
{
    here.declared.names.leave(marks.names)?;
    here.declared.names.enter();
    Ok(())
}

/// A block of statements begins, whose objects get their places in the frame from a word on.
pub fn begin_block<'t>(
    out: &mut Output<'_>,
    here: &mut Here<'t>,
    all: &'t Stmts,
    free: u32,
) -> Result<Begun, AllocError>
    requires { HoldsSome out.old.types here.old.declared }
    ensures begins { IfOk result (λ b. Begins out.old out.new here.old here.new b) }
    ensures still { OnOk result (Emits out.old out.new [] 0) }
    ensures stands { (w : Linking) (env : Environment) (n : ℕ) → IsHere here.old out.old w env → IsNumber free n → IfOk result (λ b. StandsIn here.new out.new b.block w env n (block_objects (entered env.scope) (stmts_of all.now))) }
{
    let marks = enter(here);
    let behind = place_all(out, here, all, free)?;
    begin_anew(here, marks)?;
    Ok(Begun {
        block: Block {
            next: marks.bases,
            free: behind,
        },
        marks,
    })
}
