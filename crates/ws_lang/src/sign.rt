// The three signs.

/// One of the three bytes that mean something in a text.
#[derive(Clone, Copy)]
pub enum Sign {
    /// The byte 32.
    Space,
    /// The byte 9.
    Tab,
    /// The byte 10.
    LineFeed,
}
