// Parameters of functions.

ghost use Rattle.std.specs.Prelude.{◌≡◌, Ok, Err, Some, None, IfOk, OnOk};
ghost use Rattle.c_syntax.specs.View.{decl_of, decls_of};
ghost use Rattle.c_types.specs.Types.{CType};
ghost use Rattle.c_types.specs.Refusals.{broken};
ghost use Rattle.c_types.specs.Scope.{Scope};
ghost use Rattle.c_types.specs.Expressions as expressions;
ghost use Rattle.c_types.specs.Units as plain;
ghost use Rattle.c_types.specs.Table.{known, HasType, IsType};
ghost use Rattle.c_types.specs.Known.{Grows};
ghost use Rattle.c_operands.specs.Seen.{IsJudged};
ghost use Rattle.c_declared.specs.Held.{Holds, HoldsSome, IsAround};
ghost use Rattle.c_signatures.specs.Parameters.{parameter_rules, typed_parameter, with_entry, with_entries, IsAdded, AreParameters};
ghost use Rattle.c_types.specs.declared.fault.TypeFault.{TypeFault};

use c_declared::broken_rule;
use c_expressions::written;
use c_operands::{Declarations, Judged, class_of, merged, used_type};
use c_scopes::Entity;
use c_syntax::tree::{Decl, Decls};
use c_types::{TypeFault, Types};
use std::alloc::AllocError;

/// A parameter of a function: its name, which may be empty, and the number of its type.
#[derive(Clone, Copy)]
pub struct Parameter<'t> {
    pub name: &'t [u8],
    pub ty: usize,
}

// A type as that of a parameter: an array is a pointer, and the rest are of one word.
fn as_parameter(types: &mut Types<'_>, at: u32, ty: usize) -> Result<Judged<usize>, AllocError>
    requires { IsType types.old ty }
    ensures judged { (t : CType) → HasType types.old ty t → IfOk result (λ j. IsJudged (HasType types.new) j (expressions.parameter_type at t)) }
    ensures grows { OnOk result (Grows (known types.old) (known types.new)) }
    ensures tags { OnOk result (types.new.tags ≡ types.old.tags) }
{
    let used = used_type(types, ty)?;
    if class_of(types, used).is_scalar() {
        Ok(Ok(used))
    } else {
        Ok(Err(TypeFault::Mismatch(at)))
    }
}

/// The type of a parameter.
pub fn parameter_type(
    types: &mut Types<'_>,
    declared: &Declarations<'_>,
    p: &Decl,
) -> Result<Judged<usize>, AllocError>
    requires { HoldsSome types.old declared.now }
    ensures judged { (s : Scope) → Holds types.old declared.now s → IfOk result (λ j. IsJudged (HasType types.new) j (plain.declared_parameter s (decl_of p.now))) }
    ensures grows { OnOk result (Grows (known types.old) (known types.new)) }
    ensures tags { OnOk result (types.new.tags ≡ types.old.tags) }
{
    let ty = written(types, declared, p.pos, &p.ty)?;
    match ty {
        Ok(number) => as_parameter(types, p.pos, number),
        Err(fault) => Ok(Err(fault)),
    }
}

// The refusal of a parameter's own rules: its name is new in its block, and it has no first value.
fn own_rules(types: &Types<'_>, declared: &Declarations<'_>, p: &Decl) -> Option<TypeFault>
    ensures { (s : Scope) → Holds types.now declared.now s → result ≡ broken (parameter_rules s (decl_of p.now)) }
{
    let _types = types;
    let is_new = !declared.names.is_declared_here(p.name.as_bytes());
    let is_plain = p.first.is_none();
    merged(
        broken_rule(is_new, TypeFault::Twice(p.pos)),
        broken_rule(is_plain, TypeFault::Mismatch(p.pos)),
    )
}

/// A parameter is declared, if it has a name.
pub fn declare_parameter<'t>(
    types: &Types<'_>,
    declared: &mut Declarations<'t>,
    name: &'t [u8],
    ty: usize,
) -> Result<(), AllocError>
    ensures holds { (s : Scope) (t : CType) → Holds types.now declared.old s → HasType types.now ty t → OnOk result (Holds types.now declared.new (plain.with_parameter s name.now t)) }
    ensures block { OnOk result (declared.new.names.block ≡ with_entry declared.old.names.block name.now ty) }
    ensures around { OnOk result (IsAround declared.old declared.new) }
{
    let _types = types;
    if name.len() == 0 {
        Ok(())
    } else {
        declared.names.declare(name, Entity::Object(ty))
    }
}

/// Parameters whose types are known are declared.
pub fn declare_again<'t>(
    types: &Types<'_>,
    declared: &mut Declarations<'t>,
    parameters: &[Parameter<'t>],
) -> Result<(), AllocError>
    ensures block { OnOk result (declared.new.names.block ≡ with_entries declared.old.names.block parameters.now) }
    ensures around { OnOk result (IsAround declared.old declared.new) }
{
    for p in parameters {
        declare_parameter(types, declared, p.name, p.ty)?;
    }
    Ok(())
}

// A parameter of a type more, if it keeps its own rules; or its refusal.
fn add_typed<'t>(
    types: &Types<'_>,
    declared: &mut Declarations<'t>,
    parameters: &mut Vec<Parameter<'t>>,
    p: &'t Decl,
    ty: usize,
) -> Result<Option<TypeFault>, AllocError>
    ensures added { (s : Scope) (t : CType) → Holds types.now declared.old s → HasType types.now ty t → IfOk result (λ r. IsAdded types.now declared.new parameters.old.items parameters.new.items s p.now r (typed_parameter s (decl_of p.now) t)) }
    ensures around { OnOk result (IsAround declared.old declared.new) }
{
    let refusal = own_rules(types, declared, p);
    if refusal.is_none() {
        let name = p.name.as_bytes();
        declare_parameter(types, declared, name, ty)?;
        parameters.push(Parameter { name, ty })?;
    }
    Ok(refusal)
}

/// A parameter more, or its refusal.
pub fn add<'t>(
    types: &mut Types<'_>,
    declared: &mut Declarations<'t>,
    parameters: &mut Vec<Parameter<'t>>,
    p: &'t Decl,
) -> Result<Option<TypeFault>, AllocError>
    requires { HoldsSome types.old declared.old }
    ensures added { (s : Scope) → Holds types.old declared.old s → IfOk result (λ r. IsAdded types.new declared.new parameters.old.items parameters.new.items s p.now r (plain.parameter s (decl_of p.now))) }
    ensures grows { OnOk result (Grows (known types.old) (known types.new)) }
    ensures tags { OnOk result (types.new.tags ≡ types.old.tags) }
    ensures around { OnOk result (IsAround declared.old declared.new) }
{
    let ty = parameter_type(types, declared, p)?;
    match ty {
        Ok(number) => add_typed(types, declared, parameters, p, number),
        Err(fault) => Ok(Some(fault)),
    }
}

/// The parameters of a function, each known in the types of those behind it, or the refusal that is told.
pub fn judge_parameters<'t>(
    types: &mut Types<'_>,
    declared: &mut Declarations<'t>,
    all: &'t Decls,
) -> Result<Judged<Vec<Parameter<'t>>>, AllocError>
    requires { HoldsSome types.old declared.old }
    ensures judged { (s : Scope) → Holds types.old declared.old s → IfOk result (λ j. IsJudged (AreParameters types.new declared.old s) j (plain.all_parameters s (decls_of all.now.items.items))) }
    ensures grows { OnOk result (Grows (known types.old) (known types.new)) }
    ensures tags { OnOk result (types.new.tags ≡ types.old.tags) }
    ensures around { OnOk result (IsAround declared.old declared.new) }
{
    let mut parameters = Vec::new(declared.alloc);
    let mut told = None;
    for p in &all.items {
        let refusal = add(types, declared, &mut parameters, p)?;
        told = merged(told, refusal);
    }
    Ok(judged(parameters, told))
}

// All parameters, if none is refused.
fn judged<'t>(parameters: Vec<Parameter<'t>>, told: Option<TypeFault>) -> Judged<Vec<Parameter<'t>>>
    ensures ok { told ≡ None → result ≡ Ok parameters.entry }
    ensures err { (fault : TypeFault) → told ≡ Some fault → result ≡ Err fault }
{
    match told {
        None => Ok(parameters),
        Some(fault) => Err(fault),
    }
}
