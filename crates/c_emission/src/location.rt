// Where the things of a text lie in the memory of its program.

/// At an address, or so many words behind the base of the call's frame.
#[derive(Clone, Copy)]
pub enum Location {
    Fixed(u32),
    Framed(u32),
}

/// A value that needs no evaluation: a known word, an address in the frame, or the word that lies somewhere.
#[derive(Clone, Copy)]
pub enum Direct {
    Exactly(u32),
    Address(u32),
    Stored(Location),
}
