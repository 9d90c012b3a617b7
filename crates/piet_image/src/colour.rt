// What a codel shows.

/// The colour of a codel. There are six hues, from 0 on red, yellow, green, cyan, blue and magenta, each light (0),
/// normal (1) or dark (2).
#[derive(Clone, Copy, Debug, PartialEq, Eq)]
pub enum Colour {
    White,
    Black,
    Hue { hue: u8, light: u8 },
}
