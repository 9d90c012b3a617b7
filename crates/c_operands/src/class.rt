// Classes of types.

ghost use Rattle.std.specs.Prelude.{◌≡◌, ◌<◌, length, IfOk, OnOk, IsTrue, ◌↔◌};
ghost use Rattle.c_types.specs.Types.{CType, decayed};
ghost use Rattle.c_types.specs.Table.{known, HasType, IsType};
ghost use Rattle.c_types.specs.Known.{Grows};
ghost use Rattle.c_operands.specs.Classes.{plain_class, pointer_class, pointee, element, class_of, number, pointer, object_pointer, scalar, unsigned, null_type, structure, array};

use c_types::{Shape, Types};
use std::alloc::AllocError;

/// What a type is, as far as operators ask.
#[derive(Clone, Copy, PartialEq, Eq)]
pub enum Class {
    /// `int` and `char`.
    Signed,
    /// `unsigned` and `unsigned char`.
    Unsigned,
    Void,
    /// The type of `NULL`.
    Null,
    Struct,
    Array,
    Function,
    VoidPointer,
    FunctionPointer,
    /// Any other pointer.
    ObjectPointer,
}

impl Class {
    /// A number.
    pub fn is_number(self) -> bool
        ensures { result ≡ number self }
    {
        matches!(self, Class::Signed | Class::Unsigned)
    }

    /// A pointer.
    pub fn is_pointer(self) -> bool
        ensures { result ≡ pointer self }
    {
        matches!(
            self,
            Class::VoidPointer | Class::FunctionPointer | Class::ObjectPointer
        )
    }

    /// A pointer that is none to a function.
    pub fn is_object_pointer(self) -> bool
        ensures { result ≡ object_pointer self }
    {
        matches!(self, Class::VoidPointer | Class::ObjectPointer)
    }

    /// A number without sign.
    pub fn is_unsigned(self) -> bool
        ensures { result ≡ unsigned self }
    {
        matches!(self, Class::Unsigned)
    }

    /// The type of `NULL`.
    pub fn is_null(self) -> bool
        ensures { result ≡ null_type self }
    {
        matches!(self, Class::Null)
    }

    /// A struct.
    pub fn is_struct(self) -> bool
        ensures { result ≡ structure self }
    {
        matches!(self, Class::Struct)
    }

    /// An array.
    pub fn is_array(self) -> bool
        ensures { result ≡ array self }
    {
        matches!(self, Class::Array)
    }

    /// A number or a pointer.
    pub fn is_scalar(self) -> bool
        ensures { result ≡ scalar self }
    {
        self.is_number() || self.is_pointer()
    }
}

// The class of a shape, whatever a pointer points to.
fn plain_class(shape: Shape) -> Class
    ensures { result ≡ plain_class shape }
{
    match shape {
        Shape::Int | Shape::Char => Class::Signed,
        Shape::Unsigned | Shape::UChar => Class::Unsigned,
        Shape::Void | Shape::NoType | Shape::MoreType(_, _) => Class::Void,
        Shape::Null => Class::Null,
        Shape::Struct(_) => Class::Struct,
        Shape::Pointer(_) => Class::ObjectPointer,
        Shape::Array(_, _) => Class::Array,
        Shape::Function(_, _) => Class::Function,
    }
}

// The class of a pointer to what has this class.
fn pointer_class(to: Class) -> Class
    ensures { result ≡ pointer_class to }
{
    match to {
        Class::Void => Class::VoidPointer,
        Class::Function => Class::FunctionPointer,
        _ => Class::ObjectPointer,
    }
}

/// What a pointer points to.
pub fn pointee(shape: Shape) -> Option<usize>
    ensures { result ≡ pointee shape }
{
    match shape {
        Shape::Pointer(to) => Some(to),
        _ => None,
    }
}

// What an array's elements are.
fn element(shape: Shape) -> Option<usize>
    ensures { result ≡ element shape }
{
    match shape {
        Shape::Array(of, _) => Some(of),
        _ => None,
    }
}

/// The class of a type.
pub fn class_of(types: &Types<'_>, ty: usize) -> Class
    requires { ty < length (known types.now) }
    ensures { (t : CType) → HasType types.now ty t → result ≡ class_of t }
{
    let shape = types.shape(ty);
    match pointee(shape) {
        Some(to) => pointer_class(plain_class(types.shape(to))),
        None => plain_class(shape),
    }
}

/// The type with which a value of a type is used: an array is used as a pointer to its first element.
pub fn used_type(types: &mut Types<'_>, ty: usize) -> Result<usize, AllocError>
    requires { IsType types.old ty }
    ensures used { (t : CType) → HasType types.old ty t → IfOk result (λ n. HasType types.new n (decayed t)) }
    ensures grows { OnOk result (Grows (known types.old) (known types.new)) }
    ensures tags { OnOk result (types.new.tags ≡ types.old.tags) }
{
    match element(types.shape(ty)) {
        Some(of) => types.number(Shape::Pointer(of)),
        None => Ok(ty),
    }
}
