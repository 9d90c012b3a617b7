// Places of a picture, and ways through it.
ghost use Rattle.std.specs.Prelude.{◌≡◌};
ghost use Rattle.piet_image.specs.Picture.{turned, toggled};

/// A codel's place: so many columns from the left, so many rows from the top.
#[derive(Clone, Copy)]
pub struct Place {
    pub x: u32,
    pub y: u32,
}

/// The direction pointer.
#[derive(Clone, Copy)]
pub enum Pointer {
    Right,
    Down,
    Left,
    Up,
}

/// The codel chooser: which codel of an edge is chosen, as seen along the pointer.
#[derive(Clone, Copy)]
pub enum Chooser {
    ToLeft,
    ToRight,
}

/// Where a run stands, and which way it looks.
#[derive(Clone, Copy)]
pub struct Stand {
    pub place: Place,
    pub pointer: Pointer,
    pub chooser: Chooser,
}

impl Pointer {
    /// A quarter turn clockwise.
    #[inline]
    pub fn clockwise(self) -> Pointer
        ensures { result ≡ turned self }
    {
        match self {
            Pointer::Right => Pointer::Down,
            Pointer::Down => Pointer::Left,
            Pointer::Left => Pointer::Up,
            Pointer::Up => Pointer::Right,
        }
    }
}

impl Chooser {
    /// The other one.
    #[inline]
    pub fn other(self) -> Chooser
        ensures { result ≡ toggled self }
    {
        match self {
            Chooser::ToLeft => Chooser::ToRight,
            Chooser::ToRight => Chooser::ToLeft,
        }
    }
}
