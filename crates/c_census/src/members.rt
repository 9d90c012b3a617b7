// Sums over members of tags and parameters of functions.

ghost use Rattle.std.specs.Prelude.{◌+◌, IfOk};
ghost use Rattle.c_syntax.specs.View.{ty_of, maybe_value, decl_of, decls_of};
ghost use Rattle.c_types.specs.Types.{CType, Tags};
ghost use Rattle.c_types.specs.Refusals as refusals;
ghost use Rattle.c_types.specs.Expressions.{written};
ghost use Rattle.c_types.specs.Units as plain;
ghost use Rattle.c_types.specs.Census.{of_type, ty_sum, first_sum, decl_sum, members_sum, parameters_sum};
ghost use Rattle.c_types.specs.Table.{HasType};
ghost use Rattle.c_layouts.specs.Layouts.{AreLayouts};
ghost use Rattle.c_operands.specs.Seen.{IsJudged};
ghost use Rattle.c_forms.specs.Forms.{IsSomeType};
ghost use Rattle.c_declared.specs.Held.{HoldsSome};
ghost use Rattle.c_weights.specs.Sums.{Sums, AreCounted};
ghost use Rattle.c_census.specs.Sums.{AreMoved, parameters_behind};

use crate::values::count_first;
use c_expressions::written;
use c_layouts::Layout;
use c_operands::{Declarations, Judged};
use c_signatures::{Parameter, add, parameter_type};
use c_syntax::tree::{Decl, Decls};
use c_types::{Types, Words};
use c_weights::{Sum, count_type, is_wide};
use std::alloc::AllocError;

/// The sum of a type that is declared without an object: no node, and whether it is too wide.
pub fn declared_sum(types: &Types<'_>, layouts: &[Layout<'_>], ty: Judged<usize>) -> Sum
    requires { IsSomeType types.now ty }
    ensures { (p : refusals.Judged CType) (tags : Tags) → IsJudged (HasType types.now) ty p → AreLayouts types.now layouts.now tags → Sums result (λ k. of_type (k.ty tags) p) }
{
    Sum {
        weight: Words::of(0),
        is_wide: is_wide(types, layouts, ty),
        nodes: 0,
        words: 0,
    }
}

// The sum over a declaration's parts: its node, the type that is written and its first value.
fn count_parts_of(
    types: &mut Types<'_>,
    declared: &Declarations<'_>,
    d: &Decl,
) -> Result<Sum, AllocError>
    requires { HoldsSome types.old declared.now }
    ensures { IfOk result (λ r. AreCounted types.old types.new declared.now r (λ s k. k.node + ty_sum k s (ty_of d.now.ty) + first_sum k s (maybe_value d.now.first))) }
{
    let written = count_type(types, declared, &d.ty)?;
    let first = count_first(types, declared, &d.first)?;
    Ok(Sum::node().plus(written).plus(first))
}

// The sum over a member.
fn count_member(
    types: &mut Types<'_>,
    declared: &Declarations<'_>,
    m: &Decl,
) -> Result<Sum, AllocError>
    requires { HoldsSome types.old declared.now }
    ensures { IfOk result (λ r. AreCounted types.old types.new declared.now r (λ s k. decl_sum k s (decl_of m.now) (written s m.now.pos (ty_of m.now.ty)))) }
{
    let ty = written(types, declared, m.pos, &m.ty)?;
    let own = declared_sum(types, declared.layouts.as_slice(), ty);
    let parts = count_parts_of(types, declared, m)?;
    Ok(parts.plus(own))
}

/// The sum over the members of a tag.
pub fn count_members(
    types: &mut Types<'_>,
    declared: &Declarations<'_>,
    all: &Decls,
) -> Result<Sum, AllocError>
    requires { HoldsSome types.old declared.now }
    ensures { IfOk result (λ r. AreCounted types.old types.new declared.now r (λ s k. members_sum k s (decls_of all.now.items.items))) }
{
    let mut sum = Sum::nothing();
    for m in &all.items {
        let next = count_member(types, declared, m)?;
        sum = sum.plus(next);
    }
    Ok(sum)
}

// The sum over a parameter, which is declared from then on.
fn count_parameter<'t>(
    types: &mut Types<'_>,
    declared: &mut Declarations<'t>,
    parameters: &mut Vec<Parameter<'t>>,
    p: &'t Decl,
) -> Result<Sum, AllocError>
    requires { HoldsSome types.old declared.old }
    ensures { IfOk result (λ r. AreMoved types.old types.new declared.old declared.new r (λ s k. decl_sum k s (decl_of p.now) (plain.declared_parameter s (decl_of p.now))) (λ s. plain.parameter_scope_or s (plain.parameter s (decl_of p.now)))) }
{
    let ty = parameter_type(types, declared, p)?;
    let own = declared_sum(types, declared.layouts.as_slice(), ty);
    let parts = count_parts_of(types, declared, p)?;
    let _refusal = add(types, declared, parameters, p)?;
    Ok(parts.plus(own))
}

/// The sum over the parameters of a function, each declared for those behind it.
pub fn count_parameters<'t>(
    types: &mut Types<'_>,
    declared: &mut Declarations<'t>,
    all: &'t Decls,
) -> Result<Sum, AllocError>
    requires { HoldsSome types.old declared.old }
    ensures { IfOk result (λ r. AreMoved types.old types.new declared.old declared.new r (λ s k. parameters_sum k s (decls_of all.now.items.items)) (λ s. parameters_behind s (decls_of all.now.items.items))) }
{
    let mut parameters = Vec::new(declared.alloc);
    let mut sum = Sum::nothing();
    for p in &all.items {
        let next = count_parameter(types, declared, &mut parameters, p)?;
        sum = sum.plus(next);
    }
    Ok(sum)
}
