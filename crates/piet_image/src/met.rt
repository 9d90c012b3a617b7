// What lies beside a codel.
ghost use Rattle.std.specs.Prelude.{◌≡◌, ◌<◌, None, Some, MatchOption, ⊤};
ghost use Rattle.piet_image.specs.Picture.{ahead as ahead_of, beside as beside_of};
ghost use Rattle.piet_image.specs.Raster.{picture_of};
ghost use Rattle.piet_image.specs.Met.{IsMet};

use crate::colour::Colour;
use crate::image::Image;
use crate::place::{Place, Pointer};

/// What a run meets at a place.
#[derive(Clone, Copy)]
pub enum Met {
    /// Black, or the edge of the image.
    Blocked,
    /// White, at this place.
    Free(Place),
    /// A colour, at this place, with its hue and lightness.
    Onto(Place, u8, u8),
}

/// The codel beside one of the image, if there is one.
#[inline]
pub fn beside(image: &Image, pointer: Pointer, place: Place) -> Option<Place>
    requires across { place.x < image.now.width }
    requires down { place.y < image.now.height }
    ensures { MatchOption result ((q : Place) → beside_of pointer place ≡ Some q → picture_of image.now q ≡ None)
        (λ q. (beside_of pointer place ≡ Some q) × (q.x < image.now.width) × (q.y < image.now.height)) }
{
    let x = place.x;
    let y = place.y;
    let width = image.width();
    let height = image.height();
    match pointer {
        Pointer::Right if x + 1 < width => Some(Place { x: x + 1, y }),
        Pointer::Down if y + 1 < height => Some(Place { x, y: y + 1 }),
        Pointer::Left if x > 0 => Some(Place { x: x - 1, y }),
        Pointer::Up if y > 0 => Some(Place { x, y: y - 1 }),
        _ => None,
    }
}

/// What lies ahead of a codel of the image.
#[inline]
pub fn ahead(image: &Image, pointer: Pointer, place: Place) -> Met
    requires across { place.x < image.now.width }
    requires down { place.y < image.now.height }
    ensures met { result ≡ ahead_of (picture_of image.now) pointer place }
    ensures inside { IsMet image.now.width image.now.height result }
{
    let Some(next) = beside(image, pointer, place) else {
        return Met::Blocked;
    };
    match image.at(next.x, next.y) {
        Some(Colour::White) => Met::Free(next),
        Some(Colour::Hue { hue, light }) => Met::Onto(next, hue, light),
        Some(Colour::Black) | None => Met::Blocked,
    }
}
