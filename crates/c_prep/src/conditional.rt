//! Conditionals that are open.

/// A conditional that is open.
#[derive(Clone, Copy)]
pub struct Open {
    /// The place of its `#`.
    pub pos: u32,
    /// Whether the part around it is taken.
    pub outer: bool,
    /// Whether the condition of the current part holds.
    pub holds: bool,
    /// Whether its `#else` was met.
    pub turned: bool,
}
