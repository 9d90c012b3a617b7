// Names that are declared and taken back.

ghost use Rattle.std.specs.Prelude.{◌≡◌, ◌∷◌, Option, OnOk, is_some, if◌then◌else◌};
ghost use Rattle.c_types.specs.Scope as scope;
ghost use Rattle.c_types.specs.Scope.{Scope, with_name};
ghost use Rattle.c_types.specs.Table.{Table};
ghost use Rattle.c_operands.specs.Scoped.{IsEntity};
ghost use Rattle.c_declared.specs.Held.{Holds, IsAround};

use c_operands::Declarations;
use c_scopes::Entity;
use c_types::{TypeFault, Types};
use std::alloc::AllocError;

/// A name stands for something from now on.
pub fn declare<'t>(
    types: &Types<'_>,
    declared: &mut Declarations<'t>,
    name: &'t [u8],
    entity: Entity,
) -> Result<(), AllocError>
    ensures holds { (s : Scope) (e : scope.Entity) → Holds types.now declared.old s → IsEntity types.now entity e → OnOk result (Holds types.now declared.new (with_name s name.now e)) }
    ensures around { OnOk result (IsAround declared.old declared.new) }
{
    let _types = types;
    declared.names.declare(name, entity)
}

/// The last declaration goes again, if it is refused.
pub fn settle(
    types: &Types<'_>,
    declared: &mut Declarations<'_>,
    refusal: Option<TypeFault>,
) -> Result<(), AllocError>
    ensures holds { (s : Scope) (name : _) (e : scope.Entity) → Holds types.now declared.old (with_name s name e) → OnOk result (Holds types.now declared.new (if is_some refusal then s else with_name s name e)) }
    ensures around { OnOk result (IsAround declared.old declared.new) }
{
    let _types = types;
    match refusal {
        Some(_) => declared.names.withdraw(),
        None => Ok(()),
    }
}
