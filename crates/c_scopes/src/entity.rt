// What names stand for.

/// What a name stands for, with the number of its type.
#[derive(Clone, Copy)]
pub enum Entity {
    /// An object.
    Object(usize),
    /// A function of the text, and whether its definition has begun.
    Routine(usize, bool),
    /// A function that is always known.
    BuiltIn(usize),
    /// `printf`, whose arguments are those of its format.
    Printf,
}
