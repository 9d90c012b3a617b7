// Operators that ask nothing of the tags.

ghost use Rattle.std.specs.Prelude.{◌≡◌, ◌||◌, ◌&&◌, None, IfOk, OnOk, if◌then◌else◌};
ghost use Rattle.c_syntax.specs.declared.tree.UnOp.TheVariants.{Not};
ghost use Rattle.c_types.specs.Types.{CType};
ghost use Rattle.c_types.specs.Constants as constants;
ghost use Rattle.c_types.specs.Operands as plain;
ghost use Rattle.c_types.specs.Operands.{is_place, address_operand, number_operand, cast_operand, comma_operand, assign_operand, unary_operand};
ghost use Rattle.c_types.specs.Table.{Table, known, HasType, IsType};
ghost use Rattle.c_types.specs.Known.{Grows};
ghost use Rattle.c_types.specs.Seen.{constant_of};
ghost use Rattle.c_operands.specs.Classes.{number, array, scalar, promoted_shape};
ghost use Rattle.c_operands.specs.Seen.{IsOperand, IsJudged, sort_of};

use crate::class::{Class, class_of};
use crate::conversion::{can_cast, converts, is_condition};
use crate::operand::{Operand, Sort};
use crate::refusal::{Judged, one_rule, two_rules};
use crate::value::{value_at, value_of};
use c_syntax::tree::UnOp;
use c_types::{Constant, Shape, TypeFault, Types, comma_constant, unary_constant};
use std::alloc::AllocError;

// A place or an array.
fn has_address(sort: Sort, class: Class) -> bool
    ensures { result ≡ (is_place (sort_of sort) || array class) }
{
    sort.is_place() || class.is_array()
}

/// `&`: the address of a place or an array; a function's name is a pointer already.
pub fn address(types: &mut Types<'_>, at: u32, a: Operand) -> Result<Judged<Operand>, AllocError>
    requires { IsType types.old a.ty }
    ensures judged { (x : plain.Operand) → IsOperand types.old a x → IfOk result (λ j. IsJudged (IsOperand types.new) j (address_operand at x)) }
    ensures grows { OnOk result (Grows (known types.old) (known types.new)) }
    ensures tags { OnOk result (types.new.tags ≡ types.old.tags) }
{
    if a.sort.is_designator() {
        return Ok(Ok(value_at(at, a.ty)));
    }
    let kept = has_address(a.sort, class_of(types, a.ty));
    let pointer = types.number(Shape::Pointer(a.ty))?;
    Ok(one_rule(kept, TypeFault::NotLvalue(a.at), value_at(at, pointer)))
}

// The type that a number counts as.
fn promoted_shape(class: Class) -> Shape
    ensures { result ≡ promoted_shape class }
{
    if class.is_unsigned() {
        Shape::Unsigned
    } else {
        Shape::Int
    }
}

/// `+`, `-` and `~` of a number.
pub fn number(
    types: &mut Types<'_>,
    at: u32,
    op: UnOp,
    a: Operand,
) -> Result<Judged<Operand>, AllocError>
    requires { IsType types.old a.ty }
    ensures judged { (x : plain.Operand) → IsOperand types.old a x → IfOk result (λ j. IsJudged (IsOperand types.new) j (number_operand at op x)) }
    ensures grows { OnOk result (Grows (known types.old) (known types.new)) }
    ensures tags { OnOk result (types.new.tags ≡ types.old.tags) }
{
    let value = value_of(types, a)?;
    let ty = types.number(promoted_shape(value.class))?;
    let constant = unary_constant(op, a.constant);
    Ok(one_rule(
        value.class.is_number(),
        TypeFault::Mismatch(at),
        Operand {
            at,
            ty,
            sort: Sort::Other,
            constant,
        },
    ))
}

/// `!` of a number or a pointer.
pub fn negation(types: &mut Types<'_>, at: u32, a: Operand) -> Result<Judged<Operand>, AllocError>
    requires { IsType types.old a.ty }
    ensures judged { (tags : _) (x : plain.Operand) → IsOperand types.old a x → IfOk result (λ j. IsJudged (IsOperand types.new) j (unary_operand tags at Not x)) }
    ensures grows { OnOk result (Grows (known types.old) (known types.new)) }
    ensures tags { OnOk result (types.new.tags ≡ types.old.tags) }
{
    let value = value_of(types, a)?;
    let kept = is_condition(types, value);
    let ty = types.number(Shape::Int)?;
    let constant = unary_constant(UnOp::Not, a.constant);
    Ok(one_rule(
        kept,
        TypeFault::Mismatch(at),
        Operand {
            at,
            ty,
            sort: Sort::Other,
            constant,
        },
    ))
}

// A constant that a cast to a class keeps.
fn cast_constant(class: Class, constant: Constant) -> Constant
    ensures { constant_of result ≡ (if number class then constant_of constant else constants.NotConstant) }
{
    if class.is_number() {
        constant
    } else {
        Constant::NotConstant
    }
}

/// A cast to a type.
pub fn cast(
    types: &mut Types<'_>,
    at: u32,
    ty: usize,
    a: Operand,
) -> Result<Judged<Operand>, AllocError>
    requires operand { IsType types.old a.ty }
    requires ty { IsType types.old ty }
    ensures judged { (x : plain.Operand) (t : CType) → IsOperand types.old a x → HasType types.old ty t → IfOk result (λ j. IsJudged (IsOperand types.new) j (cast_operand at t x)) }
    ensures grows { OnOk result (Grows (known types.old) (known types.new)) }
    ensures tags { OnOk result (types.new.tags ≡ types.old.tags) }
{
    let value = value_of(types, a)?;
    let class = class_of(types, ty);
    let kept = can_cast(types, value.ty, value.class, ty, class);
    let constant = cast_constant(class, a.constant);
    Ok(one_rule(
        kept,
        TypeFault::Mismatch(at),
        Operand {
            at,
            ty,
            sort: Sort::Other,
            constant,
        },
    ))
}

/// A comma, whose right side is no struct.
pub fn comma(
    types: &mut Types<'_>,
    at: u32,
    a: Operand,
    b: Operand,
) -> Result<Judged<Operand>, AllocError>
    requires { IsType types.old b.ty }
    ensures judged { (x y : plain.Operand) → IsOperand types.old a x → IsOperand types.old b y → IfOk result (λ j. IsJudged (IsOperand types.new) j (comma_operand at x y)) }
    ensures grows { OnOk result (Grows (known types.old) (known types.new)) }
    ensures tags { OnOk result (types.new.tags ≡ types.old.tags) }
{
    let kept = !class_of(types, b.ty).is_struct();
    let value = value_of(types, b)?;
    let constant = comma_constant(a.constant, b.constant);
    Ok(one_rule(
        kept,
        TypeFault::Mismatch(at),
        Operand {
            at,
            ty: value.ty,
            sort: Sort::Other,
            constant,
        },
    ))
}

/// A place of one word.
pub fn is_word_place(sort: Sort, class: Class) -> bool
    ensures { result ≡ (is_place (sort_of sort) && scalar class) }
{
    sort.is_place() && class.is_scalar()
}

/// An assignment to a place of one word, of a value that converts to its type.
pub fn assign(
    types: &mut Types<'_>,
    at: u32,
    a: Operand,
    b: Operand,
) -> Result<Judged<Operand>, AllocError>
    requires left { IsType types.old a.ty }
    requires right { IsType types.old b.ty }
    ensures judged { (tags : _) (x y : plain.Operand) → IsOperand types.old a x → IsOperand types.old b y → IfOk result (λ j. IsJudged (IsOperand types.new) j (assign_operand tags at None x y)) }
    ensures grows { OnOk result (Grows (known types.old) (known types.new)) }
    ensures tags { OnOk result (types.new.tags ≡ types.old.tags) }
{
    let value = value_of(types, b)?;
    let class = class_of(types, a.ty);
    let kept = converts(types, value, a.ty, class);
    Ok(two_rules(
        is_word_place(a.sort, class),
        TypeFault::NotLvalue(a.at),
        kept,
        TypeFault::Mismatch(at),
        value_at(at, a.ty),
    ))
}
