// How numbers are written.

/// The base in which a number is written.
#[derive(Clone, Copy)]
pub enum Radix {
    Ten,
    Sixteen,
}
