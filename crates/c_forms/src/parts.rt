// What expressions are when their parts are judged: with a refused part they have no refusal of their own.

ghost use Rattle.std.specs.Prelude.{◌≡◌, Ok, IfOk, OnOk};
ghost use Rattle.c_types.specs.Types.{CType, Tags};
ghost use Rattle.c_types.specs.Refusals as refusals;
ghost use Rattle.c_types.specs.Refusals.{after, all_three};
ghost use Rattle.c_types.specs.Operands as plain;
ghost use Rattle.c_types.specs.Operands.{choice_operand, cast_operand, size_operand};
ghost use Rattle.c_types.specs.Table.{Table, known, HasType};
ghost use Rattle.c_types.specs.Known.{Grows};
ghost use Rattle.c_layouts.specs.Layouts.{AreLayouts};
ghost use Rattle.c_operands.specs.Seen.{IsOperand, IsJudged};
ghost use Rattle.c_forms.specs.Given.{HaveLayouts};
ghost use Rattle.c_forms.specs.Forms.{one_operand, two_operand, IsSomeOperand, IsSomeType, IsPair};

use crate::apply::{one, two};
use crate::branches::choice;
use crate::form::{One, Two};
use crate::sizes::size;
use c_layouts::Layout;
use c_operands::{Judged, Operand, cast, least_of};
use c_types::Types;
use std::alloc::AllocError;

/// What an expression is whose one part is judged.
pub fn after_one(
    types: &mut Types<'_>,
    layouts: &[Layout<'_>],
    at: u32,
    form: One<'_>,
    a: Judged<Operand>,
) -> Result<Judged<Operand>, AllocError>
    requires { IsSomeOperand types.old a }
    ensures judged { (p : refusals.Judged plain.Operand) (tags : Tags) → IsJudged (IsOperand types.old) a p → AreLayouts types.old layouts.now tags → IfOk result (λ j. IsJudged (IsOperand types.new) j (after p (λ x. one_operand tags at form.entry x))) }
    ensures grows { OnOk result (Grows (known types.old) (known types.new)) }
    ensures tags { OnOk result (types.new.tags ≡ types.old.tags) }
{
    match a {
        Ok(x) => one(types, layouts, at, form, x),
        Err(fault) => Ok(Err(fault)),
    }
}

/// What an expression is whose two parts are judged.
pub fn after_two(
    types: &mut Types<'_>,
    layouts: &[Layout<'_>],
    at: u32,
    form: Two,
    a: Judged<Operand>,
    b: Judged<Operand>,
) -> Result<Judged<Operand>, AllocError>
    requires left { IsSomeOperand types.old a }
    requires right { IsSomeOperand types.old b }
    requires layouts { HaveLayouts types.old layouts.now }
    ensures judged { (p q : refusals.Judged plain.Operand) (tags : Tags) → IsJudged (IsOperand types.old) a p → IsJudged (IsOperand types.old) b q → AreLayouts types.old layouts.now tags → IfOk result (λ j. IsJudged (IsOperand types.new) j (refusals.both p q (λ x y. two_operand tags at form x y))) }
    ensures grows { OnOk result (Grows (known types.old) (known types.new)) }
    ensures tags { OnOk result (types.new.tags ≡ types.old.tags) }
{
    match a {
        Ok(x) => match b {
            Ok(y) => two(types, layouts, at, form, x, y),
            Err(fault) => Ok(Err(fault)),
        },
        Err(fault) => Ok(Err(least_of(fault, b.err()))),
    }
}

// Two expressions that are judged, or the refusal that is told of both.
fn pair(a: Judged<Operand>, b: Judged<Operand>) -> Judged<(Operand, Operand)>
    ensures { (table : Table) (p q : refusals.Judged plain.Operand) → IsJudged (IsOperand table) a p → IsJudged (IsOperand table) b q → IsJudged (IsPair table) result (refusals.both {C = plain.Operand × plain.Operand} p q (λ x y. Ok (x, y))) }
{
    match a {
        Ok(x) => match b {
            Ok(y) => Ok((x, y)),
            Err(fault) => Err(fault),
        },
        Err(fault) => Err(least_of(fault, b.err())),
    }
}

/// What a choice of two is whose three parts are judged.
pub fn after_three(
    types: &mut Types<'_>,
    at: u32,
    a: Judged<Operand>,
    b: Judged<Operand>,
    c: Judged<Operand>,
) -> Result<Judged<Operand>, AllocError>
    requires test { IsSomeOperand types.old a }
    requires first { IsSomeOperand types.old b }
    requires second { IsSomeOperand types.old c }
    ensures judged { (p q r : refusals.Judged plain.Operand) → IsJudged (IsOperand types.old) a p → IsJudged (IsOperand types.old) b q → IsJudged (IsOperand types.old) c r → IfOk result (λ j. IsJudged (IsOperand types.new) j (all_three p q r (λ x y z. choice_operand at x y z))) }
    ensures grows { OnOk result (Grows (known types.old) (known types.new)) }
    ensures tags { OnOk result (types.new.tags ≡ types.old.tags) }
{
    let others = pair(b, c);
    match a {
        Ok(x) => match others {
            Ok((y, z)) => choice(types, at, x, y, z),
            Err(fault) => Ok(Err(fault)),
        },
        Err(fault) => Ok(Err(least_of(fault, others.err()))),
    }
}

/// What a cast is whose type and expression are judged.
pub fn after_cast(
    types: &mut Types<'_>,
    at: u32,
    ty: Judged<usize>,
    a: Judged<Operand>,
) -> Result<Judged<Operand>, AllocError>
    requires ty { IsSomeType types.old ty }
    requires operand { IsSomeOperand types.old a }
    ensures judged { (p : refusals.Judged CType) (q : refusals.Judged plain.Operand) → IsJudged (HasType types.old) ty p → IsJudged (IsOperand types.old) a q → IfOk result (λ j. IsJudged (IsOperand types.new) j (refusals.both p q (λ t x. cast_operand at t x))) }
    ensures grows { OnOk result (Grows (known types.old) (known types.new)) }
    ensures tags { OnOk result (types.new.tags ≡ types.old.tags) }
{
    match ty {
        Ok(number) => match a {
            Ok(x) => cast(types, at, number, x),
            Err(fault) => Ok(Err(fault)),
        },
        Err(fault) => Ok(Err(least_of(fault, a.err()))),
    }
}

/// What `sizeof` of a type is that is judged.
pub fn after_size(
    types: &mut Types<'_>,
    layouts: &[Layout<'_>],
    at: u32,
    ty: Judged<usize>,
) -> Result<Judged<Operand>, AllocError>
    requires { IsSomeType types.old ty }
    ensures judged { (p : refusals.Judged CType) (tags : Tags) → IsJudged (HasType types.old) ty p → AreLayouts types.old layouts.now tags → IfOk result (λ j. IsJudged (IsOperand types.new) j (after p (λ t. size_operand tags at t))) }
    ensures grows { OnOk result (Grows (known types.old) (known types.new)) }
    ensures tags { OnOk result (types.new.tags ≡ types.old.tags) }
{
    match ty {
        Ok(number) => size(types, layouts, at, number),
        Err(fault) => Ok(Err(fault)),
    }
}
