// What was emitted.

use crate::code::Code;
use c_store::{Cell, Kind, Literal, Value};
use ordered::{OrderedMap, OrderedSet};
use std::alloc::Global;

/// An object of file scope: its number, and how many cells it has.
#[derive(Clone, Copy)]
pub struct File {
    pub object: u32,
    pub length: u32,
}

/// Code that was emitted, with its tables, and where code is emitted now.
#[derive(Drop)]
pub struct Emitter<'t> {
    pub alloc: Global,
    pub code: Code,
    /// What is pushed but words.
    pub constants: Vec<Value>,
    /// Kinds of arguments and of cells.
    pub kinds: Vec<Kind>,
    /// Lengths of objects.
    pub lengths: Vec<u32>,
    /// Bytes of strings that are first values.
    pub bytes: Vec<u8>,
    pub literals: Vec<Literal>,
    /// The functions' names, by number.
    pub names: OrderedSet<&'t [u8]>,
    /// The objects of file scope.
    pub objects: Vec<Vec<Cell>>,
    /// Those objects by their names.
    pub files: OrderedMap<&'t [u8], File>,
    /// The function in which code stands: 1 and the number of its name, or 0 at file scope.
    pub owner: u32,
    /// How many string literals stand before in it.
    pub before: u32,
}
