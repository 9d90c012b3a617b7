// Objects that blocks declare.

ghost use Rattle.std.specs.Prelude.{◌≡◌, ℕ, ◌+◌, [], IfOk, OnOk};
ghost use Rattle.c_syntax.specs.View.{decl_of};
ghost use Rattle.c_eval.specs.Environment.{Environment, declaring};
ghost use Rattle.c_types.specs.Table.{IsType};
ghost use Rattle.c_declared.specs.Held.{HoldsSome};
ghost use Rattle.c_lowered.specs.Locations as plain;
ghost use Rattle.c_lowered.specs.Locations.{Linking};
ghost use Rattle.c_lowered.specs.Statements.{offset_in_frame};
ghost use Rattle.c_counted.specs.Numbers.{IsNumber};
ghost use Rattle.c_addressing.specs.Here.{Emits};
ghost use Rattle.c_addressing.specs.Places.{IsLocation};
ghost use Rattle.c_lower_blocks.specs.Standing.{Goes, Stands, IsDeclared};

use crate::blocks::Block;
use crate::places::object_type;
use c_addressing::{Here, Output, located};
use c_declarations::declare_object;
use c_emission::Location;
use c_scopes::Entity;
use c_syntax::tree::Decl;
use std::alloc::AllocError;

/// An object that a block declares: the number of its type, and its word in the frame.
#[derive(Clone, Copy)]
pub struct Local {
    pub ty: usize,
    pub at: u32,
}

/// The next number. Memory doesn't hold more objects than numbers tell.
pub fn number_behind(number: usize) -> Result<usize, AllocError>
    ensures { IfOk result (λ n. n ≡ number + 1) }
{
    match number.checked_add(1) {
        Some(next) => Ok(next),
        None => Err(AllocError),
    }
}

// The offset of a place in a frame.
fn offset_in_frame(place: Location) -> u32
    ensures { (l : plain.Location) → IsLocation place l → IsNumber result (offset_in_frame l) }
{
    match place {
        Location::Fixed(_address) => 0,
        Location::Framed(offset) => offset,
    }
}

// The next object of a block is declared, with its number.
fn declare_numbered<'t>(
    out: &mut Output<'_>,
    here: &mut Here<'t>,
    block: &mut Block,
    d: &'t Decl,
) -> Result<(), AllocError>
    requires { HoldsSome out.old.types here.old.declared }
    ensures goes { OnOk result (Goes out.old out.new here.old here.new block.old block.new) }
    ensures still { OnOk result (Emits out.old out.new [] 0) }
    ensures stands { (w : Linking) (env : Environment) (n : ℕ) → Stands here.old out.old block.old w env n → OnOk result (Stands here.new out.new block.new w (declaring (decl_of d.now) env) n) }
{
    let number = block.next;
    let next = number_behind(number)?;
    declare_object(&mut out.types, &mut here.declared, false, d)?;
    here.slots
        .declare(d.name.as_bytes(), Entity::Object(number))?;
    block.next = next;
    Ok(())
}

/// An object of a block is declared, which has its place. A type that is refused is void.
pub fn declare_local<'t>(
    out: &mut Output<'_>,
    here: &mut Here<'t>,
    block: &mut Block,
    d: &'t Decl,
) -> Result<Local, AllocError>
    requires { HoldsSome out.old.types here.old.declared }
    ensures typed { IfOk result (λ l. IsType out.new.types l.ty) }
    ensures goes { OnOk result (Goes out.old out.new here.old here.new block.old block.new) }
    ensures still { OnOk result (Emits out.old out.new [] 0) }
    ensures declares { (w : Linking) (env : Environment) (n : ℕ) → Stands here.old out.old block.old w env n → IfOk result (λ l. IsDeclared here.new out.new block.new w env n (decl_of d.now) l) }
{
    let ty = object_type(out, here, d)?;
    declare_numbered(out, here, block, d)?;
    let place = located(here, d.name.as_bytes());
    let at = offset_in_frame(place);
    Ok(Local { ty, at })
}
