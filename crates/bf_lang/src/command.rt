// The commands.

/// One command of a program.
#[derive(Clone, Copy)]
pub enum Command {
    /// `>`: the head goes one cell to the right.
    Right,
    /// `<`: the head goes one cell to the left.
    Left,
    /// `+`: the cell becomes one more, and 0 after 255.
    Plus,
    /// `-`: the cell becomes one less, and 255 before 0.
    Minus,
    /// `.`: writes the cell.
    Write,
    /// `,`: the cell becomes the next byte of the input.
    Read,
    /// `[`: goes past the partner where the cell is 0.
    Open,
    /// `]`: goes behind the partner where the cell is not 0.
    Close,
}
