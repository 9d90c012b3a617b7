// A slide over white.
ghost use Rattle.std.specs.Prelude.{◌≡◌, Some, IfOk, [], reverse};
ghost use Rattle.std.specs.List.{list_any};
ghost use Rattle.piet_image.specs.Raster.{picture_of};
ghost use Rattle.piet_image.specs.Slide.{Slides, same_stop, cornered as cornered_of};
ghost use Rattle.piet_image.specs.declared.colour.Colour.TheVariants.{White};
ghost use Rattle.piet_lang.specs.Slid.{SlidesTo};

use piet_image::{Image, Met, Stand, ahead};
use std::alloc::{AllocError, Global};

/// Where a slide is after one place or one stop.
#[derive(Clone, Copy)]
pub enum Slid {
    /// At another white codel, or at the same with another pointer.
    On(Stand),
    /// It enters a colour, or ends the run.
    Ends(Option<Stand>),
}

// Whether two stops are at one codel with one pointer.
fn is_same_stop(a: Stand, b: Stand) -> bool
    ensures { result ≡ same_stop a b }
{
    a.pointer == b.pointer && (a.place.x == b.place.x && a.place.y == b.place.y)
}

// Whether one of some stops was here.
fn has_stopped(stops: &[Stand], at: Stand) -> bool
    ensures { result ≡ list_any (λ stop. same_stop stop at) stops.now }
{
    stops.iter().any(|stop| is_same_stop(*stop, at))
}

// Where a slide goes on that stopped.
fn cornered(at: Stand) -> Stand
    ensures { result ≡ cornered_of at }
{
    Stand {
        place: at.place,
        pointer: at.pointer.clockwise(),
        chooser: at.chooser.other(),
    }
}

// One place of a slide, or one stop, which is added to the others.
fn slide_on(image: &Image, stops: &mut Vec<Stand>, at: Stand) -> Result<Slid, AllocError>
    requires { picture_of image.now at.place ≡ Some White }
    ensures { IfOk result (SlidesTo image.now stops.old.items at stops.new.items) }
{
    match ahead(image, at.pointer, at.place) {
        Met::Onto(place, _, _) => Ok(Slid::Ends(Some(Stand {
            place,
            pointer: at.pointer,
            chooser: at.chooser,
        }))),
        Met::Free(place) => Ok(Slid::On(Stand {
            place,
            pointer: at.pointer,
            chooser: at.chooser,
        })),
        Met::Blocked => {
            if has_stopped(stops, at) {
                return Ok(Slid::Ends(None));
            }
            stops.push(at)?;
            Ok(Slid::On(cornered(at)))
        }
    }
}

/// Where a slide from a white codel enters a colour, or None where it ends the run.
pub(crate) fn slide(alloc: Global, image: &Image, from: Stand) -> Result<Option<Stand>, AllocError>
    requires { picture_of image.now from.place ≡ Some White }
    ensures { IfOk result (λ end. Slides (picture_of image.now) [] from end) }
{
    let mut stops = Vec::new(alloc);
    let mut at = from;
    'slide: loop {
        match slide_on(image, &mut stops, at)? {
            Slid::On(next) => at = next,
            Slid::Ends(end) => return Ok(end),
        }
    }
}
