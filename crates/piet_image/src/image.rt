// Images.
ghost use Rattle.std.specs.Prelude.{◌≡◌, ◌<◌, ◌≤◌, ◌↔◌, ℕ, ◌*◌, ◌^◌, length, map as map_list, slice_index, IfSome, IsSome};
ghost use Rattle.piet_image.specs.Code.{decoded};
ghost use Rattle.piet_image.specs.Colours.{IsColour};
ghost use Rattle.piet_image.specs.Raster.{picture_of};

use crate::code::decode;
use crate::colour::Colour;
use std::marker::Model;

/// Codels in rows, each with its colour, which takes a byte. A clause sees the width, the height and the colours.
#[derive(Drop)]
pub struct Image {
    width: u32,
    height: u32,
    codes: Vec<u8>,
}

impl Model for Image {
    ghost use Rattle.piet_image.specs.Raster.{Raster};

    ghost Value = { Raster };

    ghost use Rattle.std.specs.Prelude.{map as map_list};
    ghost use Rattle.piet_image.specs.Code.{decoded};
    ghost use Rattle.piet_image.specs.Codes.{AreCodes};

    ghost view = { λ im. record { width = im.width; height = im.height; codels = map_list decoded im.codes.items } };

    ghost invariant = { λ im. AreCodes im.width im.height im.codes.items };
}

impl Image {
    /// The image of these codes, row after row.
    pub(crate) fn of(width: u32, height: u32, codes: Vec<u8>) -> Image
        requires some { 0 < width * height }
        requires few { width * height ≤ 2 ^ 26 }
        requires count { length codes.items ≡ height * width }
        requires small { (k : ℕ) → slice_index codes.items k < 20 }
        ensures { result ≡ record { width = width; height = height; codels = map_list decoded codes.items } }
    {
        Image {
            width,
            height,
            codes,
        }
    }

    /// How many codels a row has, at least 1.
    #[inline]
    pub fn width(&self) -> u32
        ensures width { result ≡ self.now.width }
        ensures some { 0 < result }
        ensures few { result * self.now.height ≤ 2 ^ 26 }
    {
        self.width
    }

    /// How many rows there are, at least 1.
    #[inline]
    pub fn height(&self) -> u32
        ensures height { result ≡ self.now.height }
        ensures some { 0 < result }
    {
        self.height
    }

    /// The colour of the codel in column `x` of row `y`, from the top left one on, or None outside the image.
    #[inline]
    pub fn at(&self, x: u32, y: u32) -> Option<Colour>
        ensures colour { result ≡ picture_of self.now (record { x = x; y = y }) }
        ensures inside { IsSome result ↔ (x < self.now.width) × (y < self.now.height) }
        ensures valid { IfSome result IsColour }
    {
        if x < self.width && y < self.height {
            Some(decode(self.codes[y as usize * self.width as usize + x as usize]))
        } else {
            None
        }
    }
}
