// A number that is being read.

/// What was seen of a number.
#[derive(Clone, Copy)]
pub enum Seen {
    /// Blanks at most.
    Blanks,
    /// A sign or digits: whether the sign is a minus, and the number of the digits, 0 without any.
    Digits(bool, u64),
    /// A digit that led outside signed 64 bits.
    Outside,
}

/// A number that is being read, and the address where it is stored.
#[derive(Clone, Copy)]
pub struct Reading {
    pub address: i64,
    pub seen: Seen,
}

/// How a number goes on with a byte: with this seen of it, or closed as this value.
#[derive(Clone, Copy)]
pub enum Progress {
    On(Seen),
    Closed(i64),
}
