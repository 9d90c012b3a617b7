// What expressions are worth before the program runs.

ghost use Rattle.std.specs.Prelude.{◌≡◌, ◌==◌, not, if◌then◌else◌};
ghost use Rattle.word24.specs.Word.{number_of};
ghost use Rattle.c_types.specs.Constants.{Value as PlainValue, is_constant, beside, and_constant, or_constant, choice_constant, unary_constant, binary_constant, on_one, on_two, truth};
ghost use Rattle.c_types.specs.Seen.{constant_of};

use crate::arithmetic::{binary_value, truth, wrapped};
use c_syntax::tree::{BinOp, UnOp};
use word24::Word;

/// What an expression is worth before the program runs.
#[derive(Clone, Copy)]
pub enum Constant {
    /// It is no constant expression.
    NotConstant,
    /// Its evaluation meets a zero divisor or a shift count of 24 or more at the operator there.
    Undefined(u32),
    /// Its value.
    Value(Word),
}

// Whether an expression has the form of a constant expression.
fn is_constant(a: Constant) -> bool
    ensures { result ≡ is_constant (constant_of a) }
{
    match a {
        Constant::NotConstant => false,
        Constant::Undefined(_) | Constant::Value(_) => true,
    }
}

// A constant, where a part that isn't evaluated is a constant expression too.
fn beside(skipped: Constant, a: Constant) -> Constant
    ensures { constant_of result ≡ beside (constant_of skipped) (constant_of a) }
{
    if is_constant(skipped) {
        a
    } else {
        Constant::NotConstant
    }
}

// Whether a constant differs from zero, as a constant.
fn as_truth(a: Constant) -> Constant
    ensures { constant_of result ≡ on_one (constant_of a) (λ x. PlainValue (truth (not (x == 0)))) }
{
    match a {
        Constant::Value(x) => Constant::Value(truth(x.get() != 0)),
        other => other,
    }
}

// The one of two constants that a third one chooses by whether it is zero.
fn by_zero(a: Constant, zero: Constant, other: Constant) -> Constant
    ensures { constant_of result ≡ on_one (constant_of a) (λ x. if x == 0 then constant_of zero else constant_of other) }
{
    match a {
        Constant::Value(x) => { if x.get() == 0 { zero } else { other } }
        undecided => undecided,
    }
}

fn and_constant(a: Constant, b: Constant) -> Constant
    ensures { constant_of result ≡ and_constant (constant_of a) (constant_of b) }
{
    beside(b, by_zero(a, Constant::Value(truth(false)), as_truth(b)))
}

fn or_constant(a: Constant, b: Constant) -> Constant
    ensures { constant_of result ≡ or_constant (constant_of a) (constant_of b) }
{
    beside(b, by_zero(a, as_truth(b), Constant::Value(truth(true))))
}

/// The constant of a choice of two: of the two branches the chosen one is evaluated.
pub fn choice_constant(a: Constant, b: Constant, c: Constant) -> Constant
    ensures { constant_of result ≡ choice_constant (constant_of a) (constant_of b) (constant_of c) }
{
    beside(b, beside(c, by_zero(a, c, b)))
}

/// The constant of a comma: both sides are evaluated, and the right one is the value.
pub fn comma_constant(a: Constant, b: Constant) -> Constant
    ensures { constant_of result ≡ on_two (constant_of a) (constant_of b) (λ x y. PlainValue y) }
{
    match (a, b) {
        (Constant::Value(_), _) | (_, Constant::NotConstant) => b,
        _ => a,
    }
}

/// The constant of an operator on one side. `&` and `*` have none.
pub fn unary_constant(op: UnOp, a: Constant) -> Constant
    ensures { constant_of result ≡ unary_constant op (constant_of a) }
{
    match op {
        UnOp::Address | UnOp::Deref => Constant::NotConstant,
        UnOp::Plus => a,
        UnOp::Minus => match a {
            Constant::Value(x) => Constant::Value(wrapped(-i64::from(x.get()))),
            other => other,
        },
        UnOp::Invert => match a {
            Constant::Value(x) => Constant::Value(Word::wrap(16777215 - u64::from(x.get()))),
            other => other,
        },
        UnOp::Not => match a {
            Constant::Value(x) => Constant::Value(truth(x.get() == 0)),
            other => other,
        },
    }
}

/// The constant of an operator on two sides at a place: whether its left operand is unsigned, which a shift asks,
/// and whether one of both is. `&&` and `||` evaluate their right side only where the left one doesn't decide.
pub fn binary_constant(
    at: u32,
    op: BinOp,
    left: bool,
    unsigned: bool,
    a: Constant,
    b: Constant,
) -> Constant
    ensures { constant_of result ≡ binary_constant at op left unsigned (constant_of a) (constant_of b) }
{
    match op {
        BinOp::Or => or_constant(a, b),
        BinOp::And => and_constant(a, b),
        _ => match (a, b) {
            (Constant::Value(x), Constant::Value(y)) => binary_value(at, op, left, unsigned, x, y),
            (Constant::Value(_), _) | (_, Constant::NotConstant) => b,
            _ => a,
        },
    }
}
