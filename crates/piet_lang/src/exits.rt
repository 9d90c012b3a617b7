// The exits of a block: the last of its codels along the pointer and then along the chooser.
ghost use Rattle.std.specs.Prelude.{◌≡◌, ◌<◌, length, OnOk, MatchBool};
ghost use Rattle.piet_image.specs.Block.{Further, Before};
ghost use Rattle.piet_image.specs.Picture.{side as side_of};
ghost use Rattle.piet_lang.specs.Chart.{IsLast, IsLater, side_index as side_by, pointer_at as pointer_by, chooser_at as chooser_by};
ghost use Rattle.piet_lang.specs.Blocks.{AddsExits};

use piet_image::{Chooser, Place, Pointer};
use std::alloc::AllocError;

/// The index of an edge's end among the eight.
#[inline(always)]
pub(crate) fn side_index(pointer: Pointer, chooser: Chooser) -> usize
    ensures { result ≡ side_by pointer chooser }
{
    match (pointer, chooser) {
        (Pointer::Right, Chooser::ToLeft) => 0,
        (Pointer::Right, Chooser::ToRight) => 1,
        (Pointer::Down, Chooser::ToLeft) => 2,
        (Pointer::Down, Chooser::ToRight) => 3,
        (Pointer::Left, Chooser::ToLeft) => 4,
        (Pointer::Left, Chooser::ToRight) => 5,
        (Pointer::Up, Chooser::ToLeft) => 6,
        (Pointer::Up, Chooser::ToRight) => 7,
    }
}

// The pointer of an edge's end.
fn pointer_at(index: usize) -> Pointer
    ensures { result ≡ pointer_by index }
{
    if index < 2 {
        return Pointer::Right;
    }
    if index < 4 {
        return Pointer::Down;
    }
    if index < 6 {
        return Pointer::Left;
    }
    Pointer::Up
}

// The chooser of an edge's end.
fn chooser_at(index: usize) -> Chooser
    ensures { result ≡ chooser_by index }
{
    if index % 2 == 0 {
        return Chooser::ToLeft;
    }
    Chooser::ToRight
}

// The side of the pointer that the chooser names.
fn side(pointer: Pointer, chooser: Chooser) -> Pointer
    ensures { result ≡ side_of pointer chooser }
{
    match chooser {
        Chooser::ToRight => pointer.clockwise(),
        Chooser::ToLeft => pointer.clockwise().clockwise().clockwise(),
    }
}

// Whether one place lies further this way than another.
fn is_further(pointer: Pointer, place: Place, other: Place) -> bool
    ensures { MatchBool result (Further pointer place other) (Further pointer place other → ⊥) }
{
    match pointer {
        Pointer::Right => other.x < place.x,
        Pointer::Down => other.y < place.y,
        Pointer::Left => place.x < other.x,
        Pointer::Up => place.y < other.y,
    }
}

// Whether a place lies before another one, or as far; else the other one lies before it.
fn is_before(pointer: Pointer, to: Pointer, place: Place, other: Place) -> bool
    ensures { MatchBool result (Before pointer to place other) (Before pointer to other place) }
{
    if is_further(pointer, place, other) {
        return false;
    }
    if is_further(pointer, other, place) {
        return true;
    }
    !is_further(to, place, other)
}

// The later of two places.
fn later(pointer: Pointer, to: Pointer, last: Place, place: Place) -> Place
    ensures { IsLater pointer to last place result }
{
    if is_before(pointer, to, place, last) {
        return last;
    }
    place
}

// The last of some places.
fn last_of(members: &[Place], pointer: Pointer, chooser: Chooser) -> Place
    requires { 0 < length members.now }
    ensures { IsLast members.now pointer chooser result }
{
    let to = side(pointer, chooser);
    let mut last = members[0];
    for i in 0..members.len() {
        last = later(pointer, to, last, members[i]);
    }
    last
}

/// Adds the eight exits of a block.
pub(crate) fn add_exits(exits: &mut Vec<Place>, members: &[Place]) -> Result<(), AllocError>
    requires { 0 < length members.now }
    ensures { OnOk result (AddsExits members.now exits.old.items exits.new.items) }
{
    for k in 0..8 {
        let exit = last_of(members, pointer_at(k), chooser_at(k));
        exits.push(exit)?;
    }
    Ok(())
}
