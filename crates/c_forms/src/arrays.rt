// Arrays.

ghost use Rattle.std.specs.Prelude.{◌≡◌, ◌&&◌, nat_lt, nat_le, ◌^◌, if◌then◌else◌, Ok, IfOk, OnOk};
ghost use Rattle.c_types.specs.Types.{CType, Array};
ghost use Rattle.c_types.specs.Refusals as refusals;
ghost use Rattle.c_types.specs.Refusals.{after, least};
ghost use Rattle.c_types.specs.Scope.{Scope};
ghost use Rattle.c_types.specs.Operands as operands;
ghost use Rattle.c_types.specs.Expressions as plain;
ghost use Rattle.c_types.specs.Expressions.{length_in, array_of};
ghost use Rattle.c_types.specs.Table.{known, HasType, IsType};
ghost use Rattle.c_types.specs.Known.{Grows};
ghost use Rattle.c_layouts.specs.Layouts.{AreLayouts};
ghost use Rattle.c_types.specs.Seen.{constant_of};
ghost use Rattle.c_operands.specs.Seen.{IsOperand, IsJudged};
ghost use Rattle.c_forms.specs.Forms.{IsSomeType, IsSomeOperand};

use crate::judged::type_rule;
use c_layouts::{Layout, is_object_type};
use c_operands::{Judged, Operand, least, least_of};
use c_types::{Constant, Shape, TypeFault, Types};
use std::alloc::AllocError;

// Whether a number may be a length.
fn is_length(count: u32) -> bool
    ensures { result ≡ (nat_lt 0 count && nat_le count (2 ^ 22)) }
{
    0 < count && count <= 4_194_304
}

// The length that a constant gives, at the place of its expression.
fn length_in(at: u32, constant: Constant) -> Judged<usize>
    ensures { result ≡ length_in at (constant_of constant) }
{
    match constant {
        Constant::NotConstant => Err(TypeFault::Mismatch(at)),
        Constant::Undefined(place) => Err(TypeFault::Mismatch(place)),
        Constant::Value(word) => {
            let count = word.get();
            if is_length(count) {
                Ok(count as usize)
            } else {
                Err(TypeFault::Mismatch(at))
            }
        }
    }
}

/// An array of a type that is judged, whose length is left open.
pub fn open_array(
    types: &mut Types<'_>,
    layouts: &[Layout<'_>],
    at: u32,
    ty: Judged<usize>,
) -> Result<Judged<usize>, AllocError>
    requires { IsSomeType types.old ty }
    ensures judged { (p : refusals.Judged CType) (s : Scope) → IsJudged (HasType types.old) ty p → AreLayouts types.old layouts.now s.tags → IfOk result (λ j. IsJudged (HasType types.new) j (after p (λ t. array_of s at t 0))) }
    ensures grows { OnOk result (Grows (known types.old) (known types.new)) }
    ensures tags { OnOk result (types.new.tags ≡ types.old.tags) }
{
    match ty {
        Ok(of) => {
            let kept = is_object_type(types, layouts, of);
            let array = types.number(Shape::Array(of, 0))?;
            Ok(type_rule(kept, TypeFault::Mismatch(at), array))
        }
        Err(fault) => Ok(Err(fault)),
    }
}

// The refusal of two that is told, of which the second one is that of a rule.
fn with_rule(fault: TypeFault, kept: bool, other: TypeFault) -> TypeFault
    ensures { result ≡ (if kept then fault else least other fault) }
{
    if kept { fault } else { least(other, fault) }
}

// An array of a type, if an object may have it, and of a length that is judged.
fn array_with(
    types: &mut Types<'_>,
    layouts: &[Layout<'_>],
    at: u32,
    of: usize,
    length: Judged<usize>,
) -> Result<Judged<usize>, AllocError>
    requires { IsType types.old of }
    ensures judged { (t : CType) (s : Scope) → HasType types.old of t → AreLayouts types.old layouts.now s.tags → IfOk result (λ j. IsJudged (HasType types.new) j (refusals.both (array_of s at t 1) length (λ _ n. Ok (Array t n)))) }
    ensures grows { OnOk result (Grows (known types.old) (known types.new)) }
    ensures tags { OnOk result (types.new.tags ≡ types.old.tags) }
{
    let kept = is_object_type(types, layouts, of);
    match length {
        Ok(count) => {
            let array = types.number(Shape::Array(of, count))?;
            Ok(type_rule(kept, TypeFault::Mismatch(at), array))
        }
        Err(fault) => Ok(Err(with_rule(fault, kept, TypeFault::Mismatch(at)))),
    }
}

/// An array of a type that is judged, whose length is the value of an expression that is judged.
pub fn sized_array(
    types: &mut Types<'_>,
    layouts: &[Layout<'_>],
    at: u32,
    ty: Judged<usize>,
    length: Judged<Operand>,
) -> Result<Judged<usize>, AllocError>
    requires ty { IsSomeType types.old ty }
    requires length { IsSomeOperand types.old length }
    ensures judged { (p : refusals.Judged CType) (q : refusals.Judged operands.Operand) (s : Scope) → IsJudged (HasType types.old) ty p → IsJudged (IsOperand types.old) length q → AreLayouts types.old layouts.now s.tags → IfOk result (λ j. IsJudged (HasType types.new) j (refusals.both p q (λ t x. plain.sized_array s at t x))) }
    ensures grows { OnOk result (Grows (known types.old) (known types.new)) }
    ensures tags { OnOk result (types.new.tags ≡ types.old.tags) }
{
    match ty {
        Ok(of) => match length {
            Ok(x) => {
                let count = length_in(x.at, x.constant);
                array_with(types, layouts, at, of, count)
            }
            Err(fault) => Ok(Err(fault)),
        },
        Err(fault) => Ok(Err(least_of(fault, length.err()))),
    }
}
