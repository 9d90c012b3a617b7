// The types that operators give.

ghost use Rattle.std.specs.Prelude.{◌≡◌, Bool, Option, ◌&&◌, ◌||◌, IfOk, OnOk};
ghost use Rattle.c_types.specs.Types.{CType, Int, common_type};
ghost use Rattle.c_types.specs.Operands as plain;
ghost use Rattle.c_types.specs.Table.{Table, known, HasType};
ghost use Rattle.c_types.specs.Known.{Grows};
ghost use Rattle.c_operands.specs.Classes.{class_of};
ghost use Rattle.c_forms.specs.Given.{GivenIs, CanBeGiven, IsGiven};

use c_operands::Class;
use c_types::{Shape, Types};
use std::alloc::AllocError;

/// A type that an operator gives: one that has a number, or one that is known by its shape.
#[derive(Clone, Copy)]
pub enum Given {
    Number(usize),
    Shape(Shape),
}

/// The number of a type that is given.
pub fn type_number(types: &mut Types<'_>, given: Given) -> Result<usize, AllocError>
    requires { CanBeGiven types.old given }
    ensures number { (t : CType) → GivenIs types.old given t → IfOk result (λ n. HasType types.new n t) }
    ensures grows { OnOk result (Grows (known types.old) (known types.new)) }
    ensures tags { OnOk result (types.new.tags ≡ types.old.tags) }
{
    match given {
        Given::Number(number) => Ok(number),
        Given::Shape(shape) => types.number(shape),
    }
}

/// A type, where a rule is kept.
pub fn when(kept: bool, given: Given) -> Option<Given>
    ensures { (table : Table) (b : Bool) (t : CType) → kept ≡ b → GivenIs table given t → IsGiven table result (plain.when b t) }
{
    if kept { Some(given) } else { None }
}

/// The first type that there is of two.
pub fn or_else(first: Option<Given>, second: Option<Given>) -> Option<Given>
    ensures { (table : Table) (o p : Option CType) → IsGiven table first o → IsGiven table second p → IsGiven table result (plain.or_else o p) }
{
    match first {
        Some(given) => Some(given),
        None => second,
    }
}

/// Whether two rules are kept.
pub fn both(first: bool, second: bool) -> bool
    ensures { result ≡ (first && second) }
{
    first && second
}

/// Whether one of two is so.
pub fn either(first: bool, second: bool) -> bool
    ensures { result ≡ (first || second) }
{
    first || second
}

/// An int.
pub fn int() -> Given
    ensures { (table : Table) → GivenIs table result Int }
{
    Given::Shape(Shape::Int)
}

/// The type as which two numbers count.
pub fn common(a: Class, b: Class) -> Given
    ensures { (table : Table) (t u : CType) → a ≡ class_of t → b ≡ class_of u → GivenIs table result (common_type t u) }
{
    if a.is_unsigned() || b.is_unsigned() {
        Given::Shape(Shape::Unsigned)
    } else {
        Given::Shape(Shape::Int)
    }
}
