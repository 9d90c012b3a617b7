// Names as values.

ghost use Rattle.std.specs.Prelude.{◌≡◌, [], OnOk};
ghost use Rattle.c_types.specs.Scope.{entity_of};
ghost use Rattle.c_eval.specs.Environment.{Environment};
ghost use Rattle.c_code.specs.Code.{Site, name_code};
ghost use Rattle.c_declared.specs.Held.{HoldsSome};
ghost use Rattle.c_emitted.specs.Emits.{Emits};
ghost use Rattle.c_here.specs.Here.{IsHere};
ghost use Rattle.c_here.specs.Named.{object_of};

use crate::here::Here;
use c_emitted::Emitter;
use c_kinds::fetch;
use c_pieces::named_place;
use c_plain::{Instruction, Unary};
use c_scopes::Entity;
use c_types::Types;
use std::alloc::AllocError;

// The number of the type of a name's object, if it is one's.
fn object_of(entity: Option<Entity>) -> Option<usize>
    ensures { result ≡ object_of entity }
{
    match entity {
        Some(found) => match found {
            Entity::Object(ty) => Some(ty),
            Entity::Routine(_, _) => None,
            Entity::BuiltIn(_) => None,
            Entity::Printf => None,
        },
        None => None,
    }
}

/// The value of a name: that of its object, or else the function.
pub fn named_value<'t>(
    types: &Types<'_>,
    out: &mut Emitter<'t>,
    here: &Here<'_>,
    name: &'t [u8],
) -> Result<(), AllocError>
    requires { HoldsSome types.now here.now.declared }
    ensures { (site : Site) (env : Environment) → IsHere types.now here.now out.old site env → OnOk result (Emits out.old out.new (name_code site env name.now (entity_of env.scope name.now)) []) }
{
    match object_of(here.declared.names.get(name)) {
        Some(ty) => {
            named_place(out, &here.slots, name)?;
            out.add(Instruction::Unary(Unary::Fetch(fetch(types, ty))))
        }
        None => out.function(name),
    }
}
