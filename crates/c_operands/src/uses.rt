// What names are where they are used.

ghost use Rattle.std.specs.Prelude.{◌≡◌, Option, Some, is_some, [], ◌∷◌, IfOk, OnOk};
ghost use Rattle.c_types.specs.declared.fault.TypeFault.TheVariants.{BadCall};
ghost use Rattle.c_types.specs.Types as types;
ghost use Rattle.c_types.specs.Types.{CType, Pointer};
ghost use Rattle.c_types.specs.Refusals.{keeping};
ghost use Rattle.c_types.specs.Constants as constants;
ghost use Rattle.c_types.specs.Scope as scope;
ghost use Rattle.c_types.specs.Scope.{Scope, entity_of, is_function, contains};
ghost use Rattle.c_types.specs.Operands.{operand, Designator};
ghost use Rattle.c_types.specs.Expressions as plain;
ghost use Rattle.c_types.specs.Table.{Table, known, HasType, IsType};
ghost use Rattle.c_types.specs.Known.{Grows};
ghost use Rattle.c_layouts.specs.Layouts.{LayoutIs, LayoutAt};
ghost use Rattle.c_operands.specs.Seen.{IsOperand, IsJudged};
ghost use Rattle.c_operands.specs.Arguments.{IsCallee};
ghost use Rattle.c_operands.specs.Scoped.{Fits, FitsSome, IsEntityOrNone};

use crate::arguments::Callee;
use crate::class::used_type;
use crate::declarations::Declarations;
use crate::operand::{Operand, Sort};
use crate::refusal::{Judged, one_rule};
use crate::value::place_at;
use c_layouts::Layout;
use c_scopes::Entity;
use c_types::{Constant, Shape, TypeFault, Types};
use std::alloc::AllocError;

// What a name stands for.
fn entity_of(types: &Types<'_>, declared: &Declarations<'_>, name: &[u8]) -> Option<Entity>
    ensures { (s : Scope) → Fits types.now declared.now s → IsEntityOrNone types.now result (entity_of s name.now) }
{
    let _types = types;
    declared.names.get(name)
}

// Whether the whole text defines a function.
fn is_defined(types: &Types<'_>, declared: &Declarations<'_>, name: &[u8]) -> bool
    ensures { (s : Scope) → Fits types.now declared.now s → result ≡ contains s.defined name.now }
{
    let _types = types;
    declared.defined.contains(&name)
}

// A function's name, which is a pointer to the function, if the text defines it.
fn pointer_to(
    types: &mut Types<'_>,
    at: u32,
    defined: bool,
    ty: usize,
) -> Result<Judged<Operand>, AllocError>
    requires { IsType types.old ty }
    ensures judged { (t : CType) → HasType types.old ty t → IfOk result (λ j. IsJudged (IsOperand types.new) j (keeping ((defined, BadCall at) ∷ []) (operand at (Pointer t) Designator constants.NotConstant))) }
    ensures grows { OnOk result (Grows (known types.old) (known types.new)) }
    ensures tags { OnOk result (types.new.tags ≡ types.old.tags) }
{
    let pointer = types.number(Shape::Pointer(ty))?;
    Ok(one_rule(
        defined,
        TypeFault::BadCall(at),
        Operand {
            at,
            ty: pointer,
            sort: Sort::Designator,
            constant: Constant::NotConstant,
        },
    ))
}

/// A name that isn't called: an object, or a pointer to a function that the text defines.
pub fn named(
    types: &mut Types<'_>,
    declared: &Declarations<'_>,
    at: u32,
    name: &[u8],
) -> Result<Judged<Operand>, AllocError>
    requires { FitsSome types.old declared.now }
    ensures judged { (s : Scope) → Fits types.old declared.now s → IfOk result (λ j. IsJudged (IsOperand types.new) j (plain.named s at name.now (entity_of s name.now))) }
    ensures grows { OnOk result (Grows (known types.old) (known types.new)) }
    ensures tags { OnOk result (types.new.tags ≡ types.old.tags) }
{
    match entity_of(types, declared, name) {
        Some(Entity::Object(ty)) => Ok(Ok(place_at(at, ty))),
        Some(Entity::Routine(ty, _begun)) => {
            let defined = is_defined(types, declared, name);
            pointer_to(types, at, defined, ty)
        }
        Some(Entity::BuiltIn(_ty)) => Ok(Err(TypeFault::BadCall(at))),
        Some(Entity::Printf) => Ok(Err(TypeFault::BadCall(at))),
        None => Ok(Err(TypeFault::Unknown(at))),
    }
}

/// A name that is called.
pub fn called(
    types: &mut Types<'_>,
    declared: &Declarations<'_>,
    at: u32,
    name: &[u8],
) -> Result<Judged<Callee>, AllocError>
    requires { FitsSome types.old declared.now }
    ensures judged { (s : Scope) → Fits types.old declared.now s → IfOk result (λ j. IsJudged (IsCallee types.new) j (plain.named_callee s at name.now (entity_of s name.now))) }
    ensures grows { OnOk result (Grows (known types.old) (known types.new)) }
    ensures tags { OnOk result (types.new.tags ≡ types.old.tags) }
{
    match entity_of(types, declared, name) {
        Some(Entity::Object(ty)) => {
            let used = used_type(types, ty)?;
            Ok(Ok(Callee::Through(used)))
        }
        Some(Entity::Routine(ty, _begun)) => {
            let defined = is_defined(types, declared, name);
            Ok(Ok(Callee::Direct(ty, defined)))
        }
        Some(Entity::BuiltIn(ty)) => Ok(Ok(Callee::Direct(ty, true))),
        Some(Entity::Printf) => Ok(Ok(Callee::Format)),
        None => Ok(Err(TypeFault::Unknown(at))),
    }
}

// Whether an entity is a function.
fn is_function(entity: Entity) -> bool
    ensures { (table : Table) (o : Option scope.Entity) → IsEntityOrNone table (Some entity) o → result ≡ is_function o }
{
    match entity {
        Entity::Object(_ty) => false,
        Entity::Routine(_ty, _begun) => true,
        Entity::BuiltIn(_ty) => true,
        Entity::Printf => true,
    }
}

/// Whether a name is that of a function.
pub fn names_function(types: &Types<'_>, declared: &Declarations<'_>, name: &[u8]) -> bool
    ensures { (s : Scope) → Fits types.now declared.now s → result ≡ is_function (entity_of s name.now) }
{
    match entity_of(types, declared, name) {
        Some(entity) => is_function(entity),
        None => false,
    }
}

// Whether a layout is that of a tag that is declared.
fn is_there(layout: &Layout<'_>) -> bool
    ensures { (all : _) (o : Option types.Layout) → LayoutIs all layout.now o → result ≡ is_some o }
{
    !matches!(layout, Layout::Undeclared)
}

// Whether a tag has a declaration.
fn is_declared(layouts: &[Layout<'_>], tag: usize) -> bool
    ensures { (all : _) (o : Option types.Layout) → LayoutAt all layouts.now tag o → result ≡ is_some o }
{
    match layouts.get(tag) {
        Some(layout) => is_there(layout),
        None => false,
    }
}

/// The type of a struct, by its tag.
pub fn struct_type(
    types: &mut Types<'_>,
    declared: &Declarations<'_>,
    at: u32,
    name: &[u8],
) -> Result<Judged<usize>, AllocError>
    ensures judged { (s : Scope) → Fits types.old declared.now s → IfOk result (λ j. IsJudged (HasType types.new) j (plain.struct_in s at name.now)) }
    ensures grows { OnOk result (Grows (known types.old) (known types.new)) }
    ensures tags { OnOk result (types.new.tags ≡ types.old.tags) }
{
    match types.tag(name) {
        Some(tag) => {
            if is_declared(&declared.layouts, tag) {
                let ty = types.number(Shape::Struct(tag))?;
                Ok(Ok(ty))
            } else {
                Ok(Err(TypeFault::Unknown(at)))
            }
        }
        None => Ok(Err(TypeFault::Unknown(at))),
    }
}
