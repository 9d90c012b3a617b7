// What the commands from a place on do, several of them at a time.

/// What begins at a place of a program.
#[derive(Clone, Copy)]
pub enum Fold {
    /// So many `>` in a row.
    Right(u32),
    /// So many `<` in a row.
    Left(u32),
    /// So many `+` in a row.
    Plus(u32),
    /// So many `-` in a row.
    Minus(u32),
    /// The loop `[-]`.
    Clear,
    /// A `[`, with the place past its partner.
    Open(u32),
    /// A `]`, with the place behind its partner.
    Close(u32),
    /// A command that takes or writes, or the end of the program.
    Other,
}
