// Objects that blocks declare.

ghost use Rattle.std.specs.Prelude.{◌≡◌, ◌<◌, ◌^◌, false, IsOk, IfOk, OnOk};
ghost use Rattle.c_syntax.specs.View.{decl_of};
ghost use Rattle.c_types.specs.Types.{CType, words_of};
ghost use Rattle.c_types.specs.Declarations.{declared};
ghost use Rattle.c_eval.specs.Environment.{Environment, object_type_in};
ghost use Rattle.c_code.specs.Code.{Site};
ghost use Rattle.c_types.specs.Table.{IsType, HasType};
ghost use Rattle.c_declared.specs.Held.{HoldsSome};
ghost use Rattle.c_emitted.specs.declared.emitter.Emitter as emitter;
ghost use Rattle.c_blocks.specs.Standing.{Stands, Keeps};
ghost use Rattle.c_blocks.specs.Locals.{GetsSlot, IsTypedOrNone, IsDeclared, IsSomeDeclared};

use crate::objects::Block;
use c_declarations::declared_type;
use c_declared::declare;
use c_emitted::number_of;
use c_here::Here;
use c_layouts::words;
use c_scopes::Entity;
use c_syntax::tree::Decl;
use c_types::Types;
use std::alloc::AllocError;

/// An object that a block declares: the number of its type, and its slot.
#[derive(Clone, Copy)]
pub struct Local {
    pub ty: usize,
    pub slot: u32,
}

// The next object of a block takes a slot, and has a length.
fn take_slot(block: &mut Block, length: u32) -> Result<u32, AllocError>
    ensures { IfOk result (λ slot. GetsSlot block.old block.new length slot) }
{
    let slot = block.next;
    let next = number_of(slot as usize + 1)?;
    block.lengths.push(length)?;
    block.next = next;
    Ok(slot)
}

// An object of a type is declared, and gets the next slot.
fn declare_as<'t>(
    types: &Types<'_>,
    here: &mut Here<'t>,
    block: &mut Block,
    d: &'t Decl,
    ty: usize,
) -> Result<Local, AllocError>
    requires holds { HoldsSome types.now here.old.declared }
    requires ty { IsType types.now ty }
    ensures typed { IfOk result (λ l. IsType types.now l.ty) }
    ensures keeps { OnOk result (Keeps types.now types.now here.old here.new) }
    ensures free { OnOk result (block.new.free ≡ block.old.free) }
    ensures declares { (out : emitter.Emitter) (site : Site) (env : Environment) → Stands types.now here.old out block.old site env → IsOk (declared env.scope false (decl_of d.now)) → HasType types.now ty (object_type_in env.scope (decl_of d.now)) → words_of env.scope.tags (object_type_in env.scope (decl_of d.now)) < 2 ^ 24 → IfOk result (λ l. IsDeclared types.now here.new out block.old block.new site env (decl_of d.now) l) }
{
    let name = d.name.as_bytes();
    let layouts = here.declared.layouts.as_slice();
    let count = words(types, layouts, ty);
    let low = count.low();
    let length = low.get();
    let slot = take_slot(block, length)?;
    declare(types, &mut here.declared, name, Entity::Object(ty))?;
    here.slots.declare(name, Entity::Object(slot as usize))?;
    Ok(Local { ty, slot })
}

/// An object of a block is declared, and gets the next slot. There is none where its type is refused.
pub fn declare_local<'t>(
    types: &mut Types<'_>,
    here: &mut Here<'t>,
    block: &mut Block,
    d: &'t Decl,
) -> Result<Option<Local>, AllocError>
    requires { HoldsSome types.old here.old.declared }
    ensures typed { IfOk result (λ o. IsTypedOrNone types.new o) }
    ensures keeps { OnOk result (Keeps types.old types.new here.old here.new) }
    ensures free { OnOk result (block.new.free ≡ block.old.free) }
    ensures declares { (out : emitter.Emitter) (site : Site) (env : Environment) → Stands types.old here.old out block.old site env → IsOk (declared env.scope false (decl_of d.now)) → words_of env.scope.tags (object_type_in env.scope (decl_of d.now)) < 2 ^ 24 → IfOk result (λ o. IsSomeDeclared types.new here.new out block.old block.new site env (decl_of d.now) o) }
{
    let ty = declared_type(types, &here.declared, d)?;
    match ty {
        Ok(number) => {
            let local = declare_as(types, here, block, d, number)?;
            Ok(Some(local))
        }
        Err(_) => Ok(None),
    }
}
