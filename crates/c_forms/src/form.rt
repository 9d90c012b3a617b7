// Forms of expressions.

use c_syntax::tree::{BinOp, UnOp};

/// A form with one part, which is an expression.
#[derive(Clone, Copy)]
pub enum One<'e> {
    Unary(UnOp),
    /// A step of a place.
    Step,
    /// `sizeof` of an expression.
    SizeOf,
    /// A member, by its name.
    Member(&'e [u8]),
    /// A member of what a pointer points to, by its name.
    Arrow(&'e [u8]),
}

/// A form with two parts, which are expressions.
#[derive(Clone, Copy)]
pub enum Two {
    Binary(BinOp),
    /// An assignment, perhaps by an operator.
    Assign(Option<BinOp>),
    Comma,
    Index,
}
