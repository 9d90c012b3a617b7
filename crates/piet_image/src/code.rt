// Colours as bytes, and as amounts of red, green and blue.
ghost use Rattle.std.specs.Prelude.{◌≡◌, ◌<◌, IfSome, length, position, slice_get, unwrap_or};
ghost use Rattle.piet_image.specs.Code.{decoded};
ghost use Rattle.piet_image.specs.Colours.{IsColour, colour_of, rgb_of, shade_place, is_same};

use crate::colour::Colour;

/// Hue after hue, each light, normal and dark.
const SHADES: [(u8, u8, u8); 18] = [
    (255, 192, 192),
    (255, 0, 0),
    (192, 0, 0),
    (255, 255, 192),
    (255, 255, 0),
    (192, 192, 0),
    (192, 255, 192),
    (0, 255, 0),
    (0, 192, 0),
    (192, 255, 255),
    (0, 255, 255),
    (0, 192, 192),
    (192, 192, 255),
    (0, 0, 255),
    (0, 0, 192),
    (255, 192, 255),
    (255, 0, 255),
    (192, 0, 192),
];

// The place among some shades of the one of so much red, green and blue.
fn place_in(shades: &[(u8, u8, u8)], red: u8, green: u8, blue: u8) -> Option<usize>
    ensures place { result ≡ position (λ shade. is_same shade (red, green, blue)) shades.now }
    ensures small { IfSome result (λ place. place < length shades.now) }
{
    shades.iter().position(|shade| shade.0 == red && shade.1 == green && shade.2 == blue)
}

// The place among the shades of the one of so much red, green and blue.
fn shade_at(red: u8, green: u8, blue: u8) -> Option<usize>
    ensures place { result ≡ shade_place (red, green, blue) }
    ensures small { IfSome result (λ place. place < 18) }
{
    place_in(&SHADES, red, green, blue)
}

// The shade at a place.
fn shade_in(shades: &[(u8, u8, u8)], place: usize) -> (u8, u8, u8)
    requires { place < length shades.now }
    ensures { result ≡ unwrap_or (slice_get shades.now place) (255, 255, 255) }
{
    shades[place]
}

/// The byte of the colour that so much red, green and blue is: 0 for white, 1 for black, and from 2 on the shades.
pub(crate) fn code_of(red: u8, green: u8, blue: u8) -> u8
    ensures colour { decoded result ≡ colour_of (red, green, blue) }
    ensures small { result < 20 }
{
    if red == 0 && green == 0 && blue == 0 {
        return 1;
    }
    match shade_at(red, green, blue) {
        Some(place) => place as u8 + 2,
        None => 0,
    }
}

/// The colour of a byte.
#[inline(always)]
pub(crate) fn decode(code: u8) -> Colour
    ensures colour { result ≡ decoded code }
    ensures valid { code < 20 → IsColour result }
{
    if code == 0 {
        return Colour::White;
    }
    if code == 1 {
        return Colour::Black;
    }
    Colour::Hue {
        hue: (code - 2) / 3,
        light: (code - 2) % 3,
    }
}

/// How much red, green and blue a colour has.
pub(crate) fn levels(colour: Colour) -> (u8, u8, u8)
    requires { IsColour colour }
    ensures { result ≡ rgb_of colour }
{
    match colour {
        Colour::White => (255, 255, 255),
        Colour::Black => (0, 0, 0),
        Colour::Hue { hue, light } => shade_in(&SHADES, 3 * hue as usize + light as usize),
    }
}
