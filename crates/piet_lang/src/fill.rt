// The codels of a block.
ghost use Rattle.std.specs.Prelude.{◌≡◌, ◌≢◌, ℕ, ◌+◌, ◌*◌, ◌<◌, ◌≤◌, List, ◌++◌, length, slice_index, OnOk, IsTrue, MatchBool};
ghost use Rattle.piet_image.specs.Block.{IsHue, Among};
ghost use Rattle.piet_image.specs.Picture.{beside as beside_of};
ghost use Rattle.piet_image.specs.Raster.{picture_of};
ghost use Rattle.piet_lang.specs.Chart.{index_of as index_by, Filling};
ghost use Rattle.piet_lang.specs.Blocks.{Explored, ExploredAt};
ghost use Rattle.piet_lang.specs.Free.{free_codels};

use piet_image::{Colour, Image, Place, Pointer, beside};
use std::alloc::AllocError;

/// The colour of a block, and its number.
#[derive(Clone, Copy)]
pub(crate) struct Paint {
    pub hue: u8,
    pub light: u8,
    pub number: u32,
}

/// The index of a codel, column after column, since programs run down columns.
#[inline]
pub(crate) fn index_of(image: &Image, place: Place) -> usize
    requires across { place.x < image.now.width }
    requires down { place.y < image.now.height }
    ensures index { result ≡ index_by image.now place }
    ensures within { result < image.now.height * image.now.width }
{
    place.x as usize * image.height() as usize + place.y as usize
}

// Whether a codel has this colour.
fn has_hue(image: &Image, place: Place, hue: u8, light: u8) -> bool
    ensures { MatchBool result (IsHue (picture_of image.now) place hue light) (IsHue (picture_of image.now) place hue light → ⊥) }
{
    match image.at(place.x, place.y) {
        Some(
            Colour::Hue {
                hue: other,
                light: shade,
            },
        ) => other == hue && shade == light,
        _ => false,
    }
}

// Adds the codel beside one, if it has the colour and no number yet, and gives it the number.
fn visit(
    image: &Image,
    numbers: &mut [u32],
    members: &mut Vec<Place>,
    paint: Paint,
    place: Place,
    pointer: Pointer,
) -> Result<(), AllocError>
    requires across { place.x < image.now.width }
    requires down { place.y < image.now.height }
    requires count { length numbers.old ≡ image.now.height * image.now.width }
    requires some { paint.number ≢ 0 }
    ensures filled { OnOk result ((start : Place) (before : List ℕ) → Filling image.now paint.hue paint.light start paint.number before numbers.old members.old.items → Among place members.old.items
        → Filling image.now paint.hue paint.light start paint.number before numbers.new members.new.items) }
    ensures explored { OnOk result ((q : Place) → beside_of pointer place ≡ Some q → IsHue (picture_of image.now) q paint.hue paint.light → slice_index numbers.new (index_by image.now q) ≢ 0) }
    ensures kept { OnOk result ((j : ℕ) → slice_index numbers.old j ≢ 0 → slice_index numbers.new j ≢ 0) }
    ensures more { OnOk result ((added : List Place) × (members.new.items ≡ members.old.items ++ added)) }
    ensures few { OnOk result (free_codels image.now numbers.new + length members.new.items ≤ free_codels image.now numbers.old + length members.old.items) }
{
    let Some(next) = beside(image, pointer, place) else {
        return Ok(());
    };
    if !has_hue(image, next, paint.hue, paint.light) {
        return Ok(());
    }
    let index = index_of(image, next);
    let seen = numbers[index];
    if seen != 0 {
        return Ok(());
    }
    members.push(next)?;
    numbers[index] = paint.number;
    Ok(())
}

// Adds the codels beside one on its four sides, as `visit` does.
fn visit_all(
    image: &Image,
    numbers: &mut [u32],
    members: &mut Vec<Place>,
    paint: Paint,
    place: Place,
) -> Result<(), AllocError>
    requires across { place.x < image.now.width }
    requires down { place.y < image.now.height }
    requires count { length numbers.old ≡ image.now.height * image.now.width }
    requires some { paint.number ≢ 0 }
    ensures filled { OnOk result ((start : Place) (before : List ℕ) → Filling image.now paint.hue paint.light start paint.number before numbers.old members.old.items → Among place members.old.items
        → Filling image.now paint.hue paint.light start paint.number before numbers.new members.new.items) }
    ensures explored { OnOk result (ExploredAt image.now paint.hue paint.light numbers.new place) }
    ensures kept { OnOk result ((j : ℕ) → slice_index numbers.old j ≢ 0 → slice_index numbers.new j ≢ 0) }
    ensures more { OnOk result ((added : List Place) × (members.new.items ≡ members.old.items ++ added)) }
    ensures few { OnOk result (free_codels image.now numbers.new + length members.new.items ≤ free_codels image.now numbers.old + length members.old.items) }
{
    visit(image, numbers, members, paint, place, Pointer::Right)?;
    visit(image, numbers, members, paint, place, Pointer::Down)?;
    visit(image, numbers, members, paint, place, Pointer::Left)?;
    visit(image, numbers, members, paint, place, Pointer::Up)?;
    Ok(())
}

/// Gives the codels of a block its number, from one of them on, and lists them.
pub(crate) fn fill(
    image: &Image,
    numbers: &mut [u32],
    members: &mut Vec<Place>,
    paint: Paint,
    start: Place,
) -> Result<(), AllocError>
    requires across { start.x < image.now.width }
    requires down { start.y < image.now.height }
    requires count { length numbers.old ≡ image.now.height * image.now.width }
    requires some { paint.number ≢ 0 }
    requires hue { IsHue (picture_of image.now) start paint.hue paint.light }
    requires fresh { slice_index numbers.old (index_by image.now start) ≡ 0 }
    ensures filled { OnOk result (Filling image.now paint.hue paint.light start paint.number numbers.old numbers.new members.new.items) }
    ensures explored { OnOk result (Explored image.now paint.hue paint.light numbers.new members.new.items) }
    ensures few { OnOk result (length members.new.items ≤ image.now.height * image.now.width) }
{
    members.clear();
    members.push(start)?;
    numbers[index_of(image, start)] = paint.number;
    let mut done = 0;
    while done < members.len() {
        let place = members[done];
        visit_all(image, numbers, members, paint, place)?;
        done += 1;
    }
    Ok(())
}
