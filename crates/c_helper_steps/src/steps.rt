// The steps by which the tree of a helper function is made.

ghost use Rattle.std.specs.Prelude.{◌≡◌, IfOk};
ghost use Rattle.c_syntax.specs.View.{ty_of};
ghost use Rattle.c_helper_steps.specs.Postfix.{tree_of};

use c_syntax::tree::{BinOp, Ty};
use c_terms::pointer;
use std::alloc::{AllocError, Global};

/// A type that stands in a helper function.
#[derive(Clone, Copy)]
pub enum TypeName {
    Void,
    Int,
    Unsigned,
    /// Pointers: to anything, to an `int`, to a character, and to a pointer to anything.
    ToAny,
    ToInt,
    ToChar,
    ToPointer,
}

/// A step: it takes the last of what is made, and makes something of it.
#[derive(Clone, Copy)]
pub enum Step<'a> {
    Number(u32),
    Unsigned(u32),
    Name(&'a [u8]),
    /// Whether what a name has is below zero.
    Negative(&'a [u8]),
    Minus,
    Cast(TypeName),
    Deref,
    Operation(BinOp),
    Assign,
    /// The last expression is an argument of the next call.
    Argument,
    Call(&'a [u8]),
    /// The last expression is evaluated.
    Do,
    Set(&'a [u8]),
    Double(&'a [u8]),
    Raise(&'a [u8]),
    Lower(&'a [u8]),
    /// The digit at a place is written, where a has one there.
    Place(u32),
    Fresh(TypeName, &'a [u8]),
    Local(TypeName, &'a [u8]),
    If,
    While,
    Return,
    Open,
    Close,
}

impl TypeName {
    /// A type as it is written.
    pub fn tree(self, alloc: Global) -> Result<Ty, AllocError>
        ensures { IfOk result (λ t. ty_of t ≡ tree_of self) }
    {
        match self {
            TypeName::Void => Ok(Ty::Void),
            TypeName::Int => Ok(Ty::Int),
            TypeName::Unsigned => Ok(Ty::Unsigned),
            TypeName::ToAny => pointer(alloc, Ty::Void),
            TypeName::ToInt => pointer(alloc, Ty::Int),
            TypeName::ToChar => pointer(alloc, Ty::Char),
            TypeName::ToPointer => {
                let to = pointer(alloc, Ty::Void)?;
                pointer(alloc, to)
            }
        }
    }
}
