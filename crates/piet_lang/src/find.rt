// The blocks of an image.
ghost use Rattle.std.specs.Prelude.{◌≡◌, ◌≢◌, ◌+◌, ◌*◌, ◌<◌, ◌≤◌, ◌^◌, length, IfOk, OnOk, slice_index};
ghost use Rattle.piet_image.specs.Block.{IsHue};
ghost use Rattle.piet_image.specs.Raster.{picture_of};
ghost use Rattle.piet_lang.specs.Chart.{index_of as index_by};
ghost use Rattle.piet_lang.specs.Blocks.{Found};

use crate::exits::add_exits;
use crate::fill::{Paint, fill};
use piet_image::{Colour, Image, Place};
use std::alloc::{AllocError, Global};

/// The number of each codel's block, from 1 on, and 0 for a codel of no block; and of each block the size and the
/// eight exits.
#[derive(Drop)]
pub(crate) struct Blocks {
    pub numbers: Vec<u32>,
    pub sizes: Vec<u32>,
    pub exits: Vec<Place>,
}

// The codel of an index, column after column.
fn place_at(image: &Image, index: usize) -> Place
    requires within { index < image.now.height * image.now.width }
    requires few { image.now.width * image.now.height ≤ 2 ^ 26 }
    ensures index { index_by image.now result ≡ index }
    ensures across { result.x < image.now.width }
    ensures down { result.y < image.now.height }
{
    let height = image.height() as usize;
    Place {
        x: (index / height) as u32,
        y: (index % height) as u32,
    }
}

// Numbers the block of a codel.
fn number_block(
    image: &Image,
    blocks: &mut Blocks,
    members: &mut Vec<Place>,
    start: Place,
    hue: u8,
    light: u8,
) -> Result<(), AllocError>
    requires across { start.x < image.now.width }
    requires down { start.y < image.now.height }
    requires few { image.now.width * image.now.height ≤ 2 ^ 26 }
    requires found { Found image.now blocks.old.numbers.items blocks.old.sizes.items blocks.old.exits.items (index_by image.now start) }
    requires hue { IsHue (picture_of image.now) start hue light }
    requires fresh { slice_index blocks.old.numbers.items (index_by image.now start) ≡ 0 }
    ensures { OnOk result (Found image.now blocks.new.numbers.items blocks.new.sizes.items blocks.new.exits.items (index_by image.now start + 1)) }
{
    let number = blocks.sizes.len() as u32 + 1;
    let paint = Paint { hue, light, number };
    fill(image, &mut blocks.numbers, members, paint, start)?;
    blocks.sizes.push(members.len() as u32)?;
    add_exits(&mut blocks.exits, members)
}

// Numbers the block of the codel of an index, if it has one without a number.
fn number_at(
    image: &Image,
    blocks: &mut Blocks,
    members: &mut Vec<Place>,
    index: usize,
) -> Result<(), AllocError>
    requires within { index < image.now.height * image.now.width }
    requires few { image.now.width * image.now.height ≤ 2 ^ 26 }
    requires found { Found image.now blocks.old.numbers.items blocks.old.sizes.items blocks.old.exits.items index }
    ensures { OnOk result (Found image.now blocks.new.numbers.items blocks.new.sizes.items blocks.new.exits.items (index + 1)) }
{
    let place = place_at(image, index);
    match image.at(place.x, place.y) {
        Some(Colour::Hue { hue, light }) => {
            if blocks.numbers[index] != 0 {
                return Ok(());
            }
            number_block(image, blocks, members, place, hue, light)
        }
        Some(Colour::White) => Ok(()),
        Some(Colour::Black) => Ok(()),
        None => Ok(()),
    }
}

/// Finds all blocks, with their sizes and exits.
pub(crate) fn find_blocks(alloc: Global, image: &Image) -> Result<Blocks, AllocError>
    ensures { IfOk result (λ blocks. Found image.now blocks.numbers.items blocks.sizes.items blocks.exits.items (image.now.height * image.now.width)) }
{
    let count = image.height() as usize * image.width() as usize;
    let mut blocks = Blocks {
        numbers: vec![in alloc; 0; count]?,
        sizes: Vec::new(alloc),
        exits: Vec::new(alloc),
    };
    let mut members = Vec::new(alloc);
    for index in 0..count {
        number_at(image, &mut blocks, &mut members, index)?;
    }
    Ok(blocks)
}
