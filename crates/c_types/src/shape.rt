// Types by the types that they are made of.

/// A type, or a list of parameter types, by the numbers of the types and lists that it is made of.
#[derive(Clone, Copy, PartialEq, Eq, Hash)]
pub enum Shape {
    Void,
    Int,
    Unsigned,
    Char,
    UChar,
    /// The type of `NULL`.
    Null,
    /// A struct, by the number of its tag.
    Struct(usize),
    Pointer(usize),
    /// An array, with its length, or 0 where the text leaves it open.
    Array(usize, usize),
    /// A function, with the list of its parameters.
    Function(usize, usize),
    NoType,
    MoreType(usize, usize),
}
