// Writing an image row by row.
ghost use Rattle.std.specs.Prelude.{◌≡◌, ◌+◌, ◌<◌, ◌==◌, if◌then◌else◌};
ghost use Rattle.std.specs.Fmt.{decimal};
ghost use Rattle.std.specs.List.{AllByRecursion};
ghost use Rattle.mach_core.specs.Puts.{Puts};
ghost use Rattle.piet_image.specs.Colours.{IsColour, rgb_of};
ghost use Rattle.piet_image.specs.Printed.{header_text, rgb_text, row_text};
ghost use Rattle.piet_image.specs.Text.{IsExtent};

use crate::code::levels;
use crate::colour::Colour;
use itoa::Buffer;
use mach_core::{Failed, Put, Sink};

// The text of a number, which stands in the buffer.
fn number(n: u32, buffer: &mut Buffer) -> &[u8]
    ensures { result.now ≡ decimal n }
{
    buffer.format(n).as_bytes()
}

/// Writes the header of an image in the plain pixel map format, of so many pixels across and down, each from 1 to 2^31.
/// It takes no memory. An error comes from out.
pub fn write_header<O: Sink>(
    width: u32,
    height: u32,
    put: &mut Put,
    out: &mut O,
) -> Result<(), Failed>
    requires width { IsExtent width }
    requires height { IsExtent height }
    ensures { Puts (record { got = O.got out.old; faults = O.faults out.old; held = put.old })
        (record { got = O.got out.new; faults = O.faults out.new; held = put.new })
        (header_text width height) result }
{
    let mut first = Buffer::new();
    let mut second = Buffer::new();
    let across = number(width, &mut first);
    let down = number(height, &mut second);
    put.pieces(&[b"P3\n", across, b" ", down, b"\n255\n"], out)
}

// Writes how much red, green and blue a colour has, and a byte behind.
fn write_colour<O: Sink>(colour: Colour, end: u8, put: &mut Put, out: &mut O) -> Result<(), Failed>
    requires { IsColour colour }
    ensures { Puts (record { got = O.got out.old; faults = O.faults out.old; held = put.old })
        (record { got = O.got out.new; faults = O.faults out.new; held = put.new })
        (rgb_text (rgb_of colour) end) result }
{
    let (red, green, blue) = levels(colour);
    let mut first = Buffer::new();
    let mut second = Buffer::new();
    let mut third = Buffer::new();
    let red_text = number(red as u32, &mut first);
    let green_text = number(green as u32, &mut second);
    let blue_text = number(blue as u32, &mut third);
    let last = [end];
    put.pieces(&[red_text, b" ", green_text, b" ", blue_text, &last], out)
}

// The byte behind a colour of a row of so many.
fn end_of(i: usize, len: usize) -> u8
    requires { i < len }
    ensures { result ≡ (if i + 1 == len then 10 else 32) }
{
    if i + 1 == len { b'\n' } else { b' ' }
}

/// Writes a row of pixels, one for each colour, with a space behind each but the last, which has a line feed. An empty
/// row writes nothing. It takes no memory. An error comes from out.
pub fn write_row<O: Sink>(row: &[Colour], put: &mut Put, out: &mut O) -> Result<(), Failed>
    requires { AllByRecursion IsColour row.now }
    ensures { Puts (record { got = O.got out.old; faults = O.faults out.old; held = put.old })
        (record { got = O.got out.new; faults = O.faults out.new; held = put.new })
        (row_text row.now) result }
{
    for i in 0..row.len() {
        write_colour(row[i], end_of(i, row.len()), put, out)?;
    }
    Ok(())
}
