// Commands, and how a run leaves where it stands.
use piet_image::Stand;

/// What a change of colour asks for.
#[derive(Clone, Copy)]
pub enum Act {
    Push,
    Pop,
    Add,
    Subtract,
    Multiply,
    Divide,
    Modulo,
    Not,
    Greater,
    Point,
    Switch,
    Duplicate,
    Roll,
    InNumber,
    InChar,
    OutNumber,
    OutChar,
}

/// Where a run goes to, and the command on the way, if there is one.
#[derive(Clone, Copy)]
pub struct Departure {
    pub act: Option<Act>,
    pub to: Stand,
}
