// What expressions are worth, and what cells hold.

use word24::Word;

/// A pointer into an object, dead or live.
#[derive(Clone, Copy)]
pub struct Pointer {
    /// The number of the object.
    pub object: u64,
    /// How many live objects are older than it: where this is wrong, the object is only found more slowly.
    pub place: usize,
    /// How many cells it has.
    pub length: u32,
    /// How many of them stand before the one pointed to.
    pub offset: u32,
}

/// A pointer into a string literal.
#[derive(Clone, Copy)]
pub struct Letter {
    /// The number of the literal.
    pub literal: u32,
    /// How many letters stand before the one pointed to.
    pub offset: u32,
}

/// What an expression is worth.
#[derive(Clone, Copy)]
pub enum Value {
    Word(Word),
    /// The null pointer, of objects and of functions.
    Null,
    Point(Pointer),
    Letter(Letter),
    /// A pointer to the function of this number.
    Function(u32),
    /// Of what gives no result.
    Missing,
}

/// What a cell holds.
#[derive(Clone, Copy)]
pub enum Cell {
    Unset,
    Holds(Value),
}
