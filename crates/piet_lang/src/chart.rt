// An image with its blocks.
ghost use Rattle.std.specs.Prelude.{◌≡◌, ◌<◌, Some, IfOk, IfSome, MatchBool};
ghost use Rattle.piet_image.specs.Block.{IsHue};
ghost use Rattle.piet_image.specs.Picture.{ahead as ahead_of};
ghost use Rattle.piet_image.specs.Raster.{picture_of};
ghost use Rattle.piet_image.proofs.Images.{image_atlas};
ghost use Rattle.piet_image.specs.Met.{IsMet};
ghost use Rattle.piet_image.specs.declared.colour.Colour.TheVariants.{White};
ghost use Rattle.piet_lang.specs.Act.{act_between as act_by, act_of as act_in};
ghost use Rattle.piet_lang.specs.Chart.{HasHue};
ghost use Rattle.piet_lang.specs.Depart.{Leaves};
ghost use Rattle.piet_lang.specs.Step.{departure, act_taken, first_standing, corner, sliding, attempt_on, toggle, turn};

use crate::act::{Act, Departure};
use crate::exits::side_index;
use crate::fill::index_of;
use crate::find::{Blocks, find_blocks};
use crate::slide::slide;
use mach_core::Status;
use piet_image::{Colour, Image, Met, Place, Stand, ahead};
use std::alloc::{AllocError, Global};
use std::marker::Model;

/// An image with its blocks: for each codel the number of its block, and for each block its size and its eight exits. A
/// clause sees the image.
#[derive(Drop)]
pub struct Chart {
    image: Image,
    numbers: Vec<u32>,
    sizes: Vec<u32>,
    exits: Vec<Place>,
    alloc: Global,
}

impl Model for Chart {
    ghost use Rattle.piet_image.specs.Raster.{Raster};
    ghost use Rattle.piet_lang.specs.Chart.{IsChart};

    ghost Value = { Raster };

    ghost view = { λ c. c.image };

    ghost invariant = { λ c. IsChart c.image c.numbers.items c.sizes.items c.exits.items };
}

// The command of a change of colour.
fn act_between(hue: u8, light: u8, next_hue: u8, next_light: u8) -> Option<Act>
    requires hue { hue < 6 }
    requires light { light < 3 }
    requires next_hue { next_hue < 6 }
    requires next_light { next_light < 3 }
    ensures { result ≡ act_by hue light next_hue next_light }
{
    act_of((next_hue + (6 - hue)) % 6, (next_light + (3 - light)) % 3)
}

// The command of a change by so many hues and so many steps of lightness.
fn act_of(hues: u8, lights: u8) -> Option<Act>
    requires hues { hues < 6 }
    requires lights { lights < 3 }
    ensures { result ≡ act_in hues lights }
{
    match (hues, lights) {
        (0, 1) => Some(Act::Push),
        (0, 2) => Some(Act::Pop),
        (1, 0) => Some(Act::Add),
        (1, 1) => Some(Act::Subtract),
        (1, 2) => Some(Act::Multiply),
        (2, 0) => Some(Act::Divide),
        (2, 1) => Some(Act::Modulo),
        (2, 2) => Some(Act::Not),
        (3, 0) => Some(Act::Greater),
        (3, 1) => Some(Act::Point),
        (3, 2) => Some(Act::Switch),
        (4, 0) => Some(Act::Duplicate),
        (4, 1) => Some(Act::Roll),
        (4, 2) => Some(Act::InNumber),
        (5, 0) => Some(Act::InChar),
        (5, 1) => Some(Act::OutNumber),
        (5, 2) => Some(Act::OutChar),
        _ => None,
    }
}

// At another place, looking the same way.
#[inline(always)]
fn standing(place: Place, from: Stand) -> Stand
    ensures { result ≡ record { place = place; pointer = from.pointer; chooser = from.chooser } }
{
    Stand {
        place,
        pointer: from.pointer,
        chooser: from.chooser,
    }
}

// With the other chooser.
#[inline(always)]
fn toggled(from: Stand) -> Stand
    ensures { result ≡ toggle from }
{
    Stand {
        place: from.place,
        pointer: from.pointer,
        chooser: from.chooser.other(),
    }
}

// With the pointer turned clockwise.
#[inline(always)]
fn turned(from: Stand) -> Stand
    ensures { result ≡ turn from }
{
    Stand {
        place: from.place,
        pointer: from.pointer.clockwise(),
        chooser: from.chooser,
    }
}

// What a slide that ends so makes of a run.
fn slid_to(end: Option<Stand>) -> Option<Departure>
    ensures { result ≡ sliding end }
{
    match end {
        Some(to) => Some(Departure { act: None, to }),
        None => None,
    }
}

// Whether nothing can be entered there.
#[inline(always)]
fn is_blocked(met: Met) -> bool
    ensures { MatchBool result (met ≡ Met.Blocked) (met ≡ Met.Blocked → ⊥) }
{
    match met {
        Met::Blocked => true,
        Met::Free(_) => false,
        Met::Onto(_, _, _) => false,
    }
}

impl Chart {
    /// Finds the blocks of an image.
    pub(crate) fn of(alloc: Global, image: Image) -> Result<Chart, AllocError>
        ensures { IfOk result (λ chart. chart ≡ image) }
    {
        let blocks = find_blocks(alloc, &image)?;
        let Blocks {
            numbers,
            sizes,
            exits,
        } = blocks;
        Ok(Chart {
            image,
            numbers,
            sizes,
            exits,
            alloc,
        })
    }

    /// How a run stands at the top left codel.
    pub(crate) fn first_status(&self) -> Status
        ensures { result ≡ first_standing (picture_of self.now corner) }
    {
        match self.image.at(0, 0) {
            Some(Colour::Black) => Status::Ended,
            _ => Status::Going,
        }
    }

    /// The size of the block of a codel.
    #[inline(always)]
    pub(crate) fn size(&self, place: Place) -> u32
        requires { HasHue (picture_of self.now) place }
        ensures { result ≡ (image_atlas self.now).size place }
    {
        let number = self.numbers[index_of(&self.image, place)];
        self.sizes[number as usize - 1]
    }

    // The exit codel of the block of a codel.
    #[inline(always)]
    fn exit(&self, stand: Stand) -> Place
        requires { HasHue (picture_of self.now) stand.place }
        ensures { result ≡ (image_atlas self.now).exit stand.place stand.pointer stand.chooser }
    {
        let number = self.numbers[index_of(&self.image, stand.place)];
        self.exits[8 * (number as usize - 1) + side_index(stand.pointer, stand.chooser)]
    }

    // What an attempt to leave a block meets.
    #[inline(always)]
    fn meet(&self, stand: Stand) -> Met
        requires { HasHue (picture_of self.now) stand.place }
        ensures met { result ≡ ahead_of (picture_of self.now) stand.pointer ((image_atlas self.now).exit stand.place stand.pointer stand.chooser) }
        ensures inside { IsMet self.now.width self.now.height result }
    {
        let exit = self.exit(stand);
        ahead(&self.image, stand.pointer, exit)
    }

    // From where the first attempt is made that doesn't fail, and what it meets.
    #[inline(always)]
    fn leave(&self, stand: Stand) -> Option<(Stand, Met)>
        requires { HasHue (picture_of self.now) stand.place }
        ensures counts { Leaves (picture_of self.now) (image_atlas self.now) stand result }
        ensures inside { IfSome result (λ r. IsMet self.now.width self.now.height r.1) }
    {
        let mut from = stand;
        for _turns in 0..4u32 {
            let met = self.meet(from);
            if !is_blocked(met) {
                return Some((from, met));
            }
            from = toggled(from);
            let other = self.meet(from);
            if !is_blocked(other) {
                return Some((from, other));
            }
            from = turned(from);
        }
        None
    }

    // Where an attempt leads that meets this.
    fn enter(
        &self,
        hue: u8,
        light: u8,
        from: Stand,
        met: Met,
    ) -> Result<Option<Departure>, AllocError>
        requires hue { hue < 6 }
        requires light { light < 3 }
        requires inside { IsMet self.now.width self.now.height met }
        requires white { (q : Place) → met ≡ Met.Free q → picture_of self.now q ≡ Some White }
        requires some { met ≡ Met.Blocked → ⊥ }
        ensures { IfOk result (λ to. attempt_on (image_atlas self.now).slid hue light from met ≡ Some to) }
    {
        match met {
            Met::Onto(place, next_hue, next_light) => Ok(Some(Departure {
                act: act_between(hue, light, next_hue, next_light),
                to: standing(place, from),
            })),
            Met::Free(place) => {
                let end = slide(self.alloc, &self.image, standing(place, from))?;
                Ok(slid_to(end))
            }
            Met::Blocked => unreachable!(),
        }
    }

    /// How a run leaves where it stands, if it does. A slide needs memory for its stops.
    pub(crate) fn departure(&self, stand: Stand) -> Result<Option<Departure>, AllocError>
        ensures { IfOk result (λ to. to ≡ departure (picture_of self.now) (image_atlas self.now) stand) }
    {
        match self.image.at(stand.place.x, stand.place.y) {
            Some(Colour::White) => {
                let end = slide(self.alloc, &self.image, stand)?;
                Ok(slid_to(end))
            }
            Some(Colour::Hue { hue, light }) => match self.leave(stand) {
                Some((from, met)) => self.enter(hue, light, from, met),
                None => Ok(None),
            },
            _ => Ok(None),
        }
    }

    /// The command by which a run goes on to another colour, and where it leads, if there is one.
    #[inline(always)]
    pub(crate) fn passage(&self, stand: Stand) -> Option<(Act, Stand)>
        ensures leads { IfSome result (λ r. departure (picture_of self.now) (image_atlas self.now) stand ≡ Some (record { act = Some r.0; to = r.1 })) }
        ensures hue { IfSome result (λ r. HasHue (picture_of self.now) stand.place) }
    {
        let Some(Colour::Hue { hue, light }) = self.image.at(stand.place.x, stand.place.y) else {
            return None;
        };
        let Some((from, Met::Onto(place, next_hue, next_light))) = self.leave(stand) else {
            return None;
        };
        match act_between(hue, light, next_hue, next_light) {
            Some(act) => Some((act, standing(place, from))),
            None => None,
        }
    }

    /// The command by which a run leaves where it stands, if there is one.
    pub(crate) fn act_at(&self, stand: Stand) -> Option<Act>
        ensures { result ≡ act_taken (departure (picture_of self.now) (image_atlas self.now) stand) }
    {
        let Some(Colour::Hue { hue, light }) = self.image.at(stand.place.x, stand.place.y) else {
            return None;
        };
        match self.leave(stand) {
            Some((_, Met::Onto(_, next_hue, next_light))) => {
                act_between(hue, light, next_hue, next_light)
            }
            _ => None,
        }
    }
}
