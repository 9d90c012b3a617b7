// The commands of a lane.

/// What a lane does at a codel. Each is Piet's command of the name; `Push` pushes 1, since each codel is a block of its
/// own.
#[derive(Clone, Copy, Debug, PartialEq, Eq)]
pub enum Command {
    Push,
    Pop,
    Add,
    Subtract,
    Multiply,
    Divide,
    Modulo,
    Not,
    Greater,
    Duplicate,
    Roll,
    InChar,
    OutChar,
}
