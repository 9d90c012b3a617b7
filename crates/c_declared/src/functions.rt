// Functions that are declared more than once.

ghost use Rattle.std.specs.Prelude.{◌≡◌, ◌&&◌, not, Option, Some};
ghost use Rattle.c_syntax.specs.Words.{meaning};
ghost use Rattle.c_types.specs.Types.{CType};
ghost use Rattle.c_types.specs.Scope as scope;
ghost use Rattle.c_types.specs.Scope.{Scope};
ghost use Rattle.c_types.specs.Units as plain;
ghost use Rattle.c_types.specs.Table.{Table, HasType};
ghost use Rattle.c_operands.specs.Scoped.{Fits, IsEntity, IsEntityOrNone};

use c_operands::Declarations;
use c_scopes::Entity;
use c_types::Types;

/// What a name stands for by a declaration of the innermost block, if it has one there.
pub fn found_here(types: &Types<'_>, declared: &Declarations<'_>, name: &[u8]) -> Option<Entity>
    ensures { (s : Scope) → Fits types.now declared.now s → IsEntityOrNone types.now result (meaning s.block name.now) }
{
    let _types = types;
    if declared.names.is_declared_here(name) {
        declared.names.get(name)
    } else {
        None
    }
}

// Whether equal types are declared, and no second definition begins.
fn is_defined_once(same: bool, begun: bool, defines: bool) -> bool
    ensures { result ≡ (same && not (begun && defines)) }
{
    same && !(begun && defines)
}

// Whether a function of a type agrees with what its name stands for.
fn agrees(types: &Types<'_>, entity: Entity, ty: usize, defines: bool) -> bool
    ensures { (e : scope.Entity) (t : CType) → IsEntity types.now entity e → HasType types.now ty t → result ≡ plain.may_declare (Some e) t defines }
{
    match entity {
        Entity::Routine(other, begun) => {
            is_defined_once(types.is_same(ty, other), begun, defines)
        }
        Entity::BuiltIn(other) => is_defined_once(types.is_same(ty, other), true, defines),
        Entity::Object(_) | Entity::Printf => false,
    }
}

/// Whether a function of a type may be declared, or defined, where its name stands for this. A function's prototypes
/// and its one definition agree.
pub fn may_declare(types: &Types<'_>, found: Option<Entity>, ty: usize, defines: bool) -> bool
    ensures { (o : Option scope.Entity) (t : CType) → IsEntityOrNone types.now found o → HasType types.now ty t → result ≡ plain.may_declare o t defines }
{
    match found {
        Some(entity) => agrees(types, entity, ty, defines),
        None => true,
    }
}

// What a function's name stands for behind its declaration, where it stood for something before.
fn entity_again(entity: Entity, ty: usize, defines: bool) -> Entity
    ensures { (table : Table) (e : scope.Entity) (t : CType) → IsEntity table entity e → HasType table ty t → IsEntity table result (plain.entity_behind (Some e) t defines) }
{
    match entity {
        Entity::BuiltIn(other) => Entity::BuiltIn(other),
        Entity::Routine(_, begun) => Entity::Routine(ty, begun || defines),
        Entity::Object(_) | Entity::Printf => Entity::Routine(ty, defines),
    }
}

/// What a function's name stands for from its declaration on.
pub fn entity_behind(found: Option<Entity>, ty: usize, defines: bool) -> Entity
    ensures { (table : Table) (o : Option scope.Entity) (t : CType) → IsEntityOrNone table found o → HasType table ty t → IsEntity table result (plain.entity_behind o t defines) }
{
    match found {
        Some(entity) => entity_again(entity, ty, defines),
        None => Entity::Routine(ty, defines),
    }
}
