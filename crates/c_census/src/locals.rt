// Sums over the declarations of objects.

ghost use Rattle.std.specs.Prelude.{◌≡◌, ◌+◌, false, min, IfOk, OnOk};
ghost use Rattle.std.specs.Result.{result_err};
ghost use Rattle.c_syntax.specs.View.{decl_of, maybe_value};
ghost use Rattle.c_types.specs.Types.{CType, Tags, words_of};
ghost use Rattle.c_types.specs.Refusals as refusals;
ghost use Rattle.c_types.specs.Scope.{Scope};
ghost use Rattle.c_types.specs.Declarations as plain;
ghost use Rattle.c_types.specs.Declarations.{scope_or};
ghost use Rattle.c_types.specs.Census.{of_type, object_sum};
ghost use Rattle.c_types.specs.Limits.{initialised_words};
ghost use Rattle.c_types.specs.Seen.{Counts};
ghost use Rattle.c_types.specs.Table.{HasType};
ghost use Rattle.c_layouts.specs.Layouts.{AreLayouts};
ghost use Rattle.c_operands.specs.Seen.{IsJudged};
ghost use Rattle.c_forms.specs.Forms.{IsSomeType};
ghost use Rattle.c_declared.specs.Held.{Holds, HoldsSome, IsAround};
ghost use Rattle.c_syntax.specs.Plain.{CDecl};
ghost use Rattle.c_weights.specs.Sums.{most_told, Sums};
ghost use Rattle.c_census.specs.Sums.{AreMoved};

use crate::values::count_first;
use c_declarations::{declare_object, declared_type};
use c_layouts::{Layout, words};
use c_operands::{Declarations, Judged};
use c_syntax::tree::{Decl, Value};
use c_types::{TypeFault, Types, Words};
use c_weights::{Sum, count_type, is_wide, told};
use std::alloc::AllocError;

/// The sum over a declaration, and its refusal.
#[derive(Clone, Copy)]
pub struct Local {
    pub sum: Sum,
    pub refusal: Option<TypeFault>,
}

// The words of an object of a type with a first value; without one they don't count.
fn first_words(
    types: &Types<'_>,
    layouts: &[Layout<'_>],
    ty: Judged<usize>,
    first: &Option<Value>,
) -> Words
    requires { IsSomeType types.now ty }
    ensures { (p : refusals.Judged CType) (tags : Tags) → IsJudged (HasType types.now) ty p → AreLayouts types.now layouts.now tags → Counts result (of_type (λ t. initialised_words tags t (maybe_value first.now)) p) }
{
    match ty {
        Ok(number) => match first {
            Some(_) => words(types, layouts, number),
            None => Words::of(0),
        },
        Err(_) => Words::of(0),
    }
}

// The words of an object of a type, as far as 2^22 + 1.
fn told_words(types: &Types<'_>, layouts: &[Layout<'_>], ty: Judged<usize>) -> u64
    requires { IsSomeType types.now ty }
    ensures { (p : refusals.Judged CType) (tags : Tags) → IsJudged (HasType types.now) ty p → AreLayouts types.now layouts.now tags → result ≡ min (of_type (words_of tags) p) most_told }
{
    match ty {
        Ok(number) => told(words(types, layouts, number)),
        Err(_) => 0,
    }
}

// The sum of the type of a declared object.
fn type_sum(
    types: &Types<'_>,
    layouts: &[Layout<'_>],
    ty: Judged<usize>,
    first: &Option<Value>,
) -> Sum
    requires { IsSomeType types.now ty }
    ensures { (p : refusals.Judged CType) (tags : Tags) → IsJudged (HasType types.now) ty p → AreLayouts types.now layouts.now tags → Sums result (λ k. of_type (λ t. k.ty tags t + k.object tags t (maybe_value first.now)) p) }
{
    Sum {
        weight: first_words(types, layouts, ty, first),
        is_wide: is_wide(types, layouts, ty),
        nodes: 0,
        words: told_words(types, layouts, ty),
    }
}

/// The sum over an object's declaration in a function, which is declared from then on if it isn't refused.
pub fn count_local<'t>(
    types: &mut Types<'_>,
    declared: &mut Declarations<'t>,
    d: &'t Decl,
) -> Result<Local, AllocError>
    requires { HoldsSome types.old declared.old }
    ensures counted { IfOk result (λ r. AreMoved types.old types.new declared.old declared.new r.sum (λ s k. object_sum k s (decl_of d.now)) (λ s. scope_or s (plain.declared s false (decl_of d.now)))) }
    ensures refusal { (s : Scope) → Holds types.old declared.old s → IfOk result (λ r. r.refusal ≡ result_err (plain.declared s false (decl_of d.now))) }
{
    let ty = declared_type(types, declared, d)?;
    let own = type_sum(types, declared.layouts.as_slice(), ty, &d.first);
    let written = count_type(types, declared, &d.ty)?;
    let refusal = declare_object(types, declared, false, d)?;
    let first = count_first(types, declared, &d.first)?;
    Ok(Local {
        sum: Sum::node().plus(written).plus(first).plus(own),
        refusal,
    })
}

/// The sum over a statement that is a declaration.
pub fn count_declared<'t>(
    types: &mut Types<'_>,
    declared: &mut Declarations<'t>,
    d: &'t Decl,
) -> Result<Sum, AllocError>
    requires { HoldsSome types.old declared.old }
    ensures { IfOk result (λ r. AreMoved types.old types.new declared.old declared.new r (λ s k. k.node + object_sum k s (decl_of d.now)) (λ s. scope_or s (plain.declared s false (decl_of d.now)))) }
{
    let local = count_local(types, declared, d)?;
    Ok(Sum::node().plus(local.sum))
}

/// A name that is declared goes again, if its declaration wasn't refused.
pub fn forget(
    types: &Types<'_>,
    declared: &mut Declarations<'_>,
    refusal: Option<TypeFault>,
) -> Result<(), AllocError>
    ensures holds { (s : Scope) (d : CDecl) → refusal ≡ result_err (plain.declared s false d) → Holds types.now declared.old (scope_or s (plain.declared s false d)) → OnOk result (Holds types.now declared.new s) }
    ensures around { OnOk result (IsAround declared.old declared.new) }
{
    let _types = types;
    match refusal {
        Some(_) => Ok(()),
        None => {
            declared.names.withdraw()?;
            Ok(())
        }
    }
}

/// The sum over a declaration whose name isn't in scope behind it.
pub fn count_forgotten<'t>(
    types: &mut Types<'_>,
    declared: &mut Declarations<'t>,
    d: &'t Decl,
) -> Result<Sum, AllocError>
    requires { HoldsSome types.old declared.old }
    ensures { IfOk result (λ r. AreMoved types.old types.new declared.old declared.new r (λ s k. object_sum k s (decl_of d.now)) (λ s. s)) }
{
    let local = count_local(types, declared, d)?;
    forget(types, declared, local.refusal)?;
    Ok(local.sum)
}
