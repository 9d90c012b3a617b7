// A live object as it is held.

ghost use Rattle.std.specs.Prelude.{◌<◌, ◌+◌, ◌^◌};

/// A live object: its number, the index of its first cell, and how many it has.
#[derive(Clone, Copy)]
pub struct Live {
    pub number: u64,
    pub first: usize,
    pub length: u32,
    pub ghost fits: { first + length < 2 ^ 64 },
}
