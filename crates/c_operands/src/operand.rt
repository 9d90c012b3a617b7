// Operands.

ghost use Rattle.std.specs.Prelude.{◌≡◌};

use crate::class::Class;
use c_types::Constant;

/// What an expression is, beside its type.
#[derive(Clone, Copy)]
pub enum Sort {
    /// An object, what a pointer points to, an element or a member.
    Place,
    /// The name of a function.
    Designator,
    /// A literal 0.
    Zero,
    Other,
}

impl Sort {
    ghost use Rattle.c_types.specs.Operands.{is_place, is_designator, is_zero};
    ghost use Rattle.c_operands.specs.Seen.{sort_of};

    /// A place.
    pub fn is_place(self) -> bool
        ensures { result ≡ is_place (sort_of self) }
    {
        matches!(self, Sort::Place)
    }

    /// The name of a function.
    pub fn is_designator(self) -> bool
        ensures { result ≡ is_designator (sort_of self) }
    {
        matches!(self, Sort::Designator)
    }

    /// A literal 0.
    pub fn is_zero(self) -> bool
        ensures { result ≡ is_zero (sort_of self) }
    {
        matches!(self, Sort::Zero)
    }
}

/// What an expression is: its place in the text, the number of its type, its sort and its value as a constant.
#[derive(Clone, Copy)]
pub struct Operand {
    pub at: u32,
    pub ty: usize,
    pub sort: Sort,
    pub constant: Constant,
}

/// An operand as it is used for its value: the type's number and class, and whether it is NULL or a literal 0.
#[derive(Clone, Copy)]
pub struct Value {
    pub ty: usize,
    pub class: Class,
    pub null: bool,
}
