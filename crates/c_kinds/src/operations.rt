// Which operator is meant.

ghost use Rattle.std.specs.Prelude.{◌≡◌};
ghost use Rattle.c_types.specs.Types.{CType, Tags};
ghost use Rattle.c_resolved.specs.Resolved.{operation_of};
ghost use Rattle.c_kinds.specs.Sides.{IsSide, words_by, sum_by, difference_by, compared_by, equality_by, order_by};

use crate::kinds::kind_by;
use crate::side::Side;
use c_plain::Operation;
use c_store::Kind;
use c_syntax::tree::BinOp;

// An operator on two words.
fn words(op: BinOp, a: Side, b: Side) -> Operation
    ensures { result ≡ words_by op a b }
{
    Operation::Words(
        op,
        a.class.is_unsigned(),
        a.class.is_unsigned() || b.class.is_unsigned(),
    )
}

// A sum is one of a pointer and a number, in either order, or of numbers.
fn sum(a: Side, b: Side) -> Operation
    ensures { result ≡ sum_by a b }
{
    if a.class.is_pointer() {
        Operation::PointerPlus(b.class.is_unsigned(), a.words)
    } else if b.class.is_pointer() {
        Operation::PlusPointer(a.class.is_unsigned(), b.words)
    } else {
        words(BinOp::Add, a, b)
    }
}

// A difference is one of pointers, of a pointer and a number, or of numbers.
fn difference(a: Side, b: Side) -> Operation
    ensures { result ≡ difference_by a b }
{
    if a.class.is_pointer() && b.class.is_pointer() {
        Operation::Difference(a.words)
    } else if a.class.is_pointer() {
        Operation::PointerLess(b.class.is_unsigned(), a.words)
    } else {
        words(BinOp::Sub, a, b)
    }
}

// The kind of pointers that are compared.
fn compared(a: Side, b: Side) -> Kind
    ensures { result ≡ compared_by a b }
{
    if a.class.is_pointer() {
        kind_by(a.class)
    } else if b.class.is_pointer() {
        kind_by(b.class)
    } else {
        Kind::ObjectPointer
    }
}

// `==` and `!=` compare pointers or words.
fn equality(op: BinOp, a: Side, b: Side, negated: bool) -> Operation
    ensures { result ≡ equality_by op a b negated }
{
    if a.class.is_pointer() || b.class.is_pointer() || a.class.is_null() || b.class.is_null() {
        Operation::Equal(compared(a, b), negated)
    } else {
        words(op, a, b)
    }
}

// `<` and its kin do too.
fn order(op: BinOp, a: Side, b: Side, swapped: bool, negated: bool) -> Operation
    ensures { result ≡ order_by op a b swapped negated }
{
    if a.class.is_pointer() {
        Operation::Before(swapped, negated)
    } else {
        words(op, a, b)
    }
}

/// The operator on two sides that is no `&&` and no `||`.
pub fn operation(op: BinOp, a: Side, b: Side) -> Operation
    ensures { (t u : CType) (tags : Tags) → IsSide tags a t → IsSide tags b u → result ≡ operation_of tags op t u }
{
    match op {
        BinOp::Add => sum(a, b),
        BinOp::Sub => difference(a, b),
        BinOp::Eq => equality(op, a, b, false),
        BinOp::Ne => equality(op, a, b, true),
        BinOp::Lt => order(op, a, b, false, false),
        BinOp::Gt => order(op, a, b, true, false),
        BinOp::Le => order(op, a, b, true, true),
        BinOp::Ge => order(op, a, b, false, true),
        _ => words(op, a, b),
    }
}
