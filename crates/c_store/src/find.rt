// Objects and cells found by pointers.

ghost use Rattle.std.specs.Prelude.{◌≡◌, ◌==◌, Err, find, slice_get};
ghost use Rattle.std.specs.Option.{option_map};
ghost use Rattle.c_store.specs.Values as plain;
ghost use Rattle.c_store.specs.Values.{Stack};
ghost use Rattle.c_store.specs.Words.{letters, cell_in, write_cell};
ghost use Rattle.c_store.specs.Shown.{cell_of};
ghost use Rattle.c_store.specs.Live.{index_of, Ascending, OldestBelow};

use crate::act::Act;
use crate::kind::{Kind, holds_no_other};
use crate::literal::Literal;
use crate::live::Live;
use crate::value::{Cell, Letter, Pointer, Value};

// The object of a number, by going through them all.
#[cold]
#[inline(never)]
fn search_live(objects: &[Live], number: u64) -> Option<Live>
    ensures { result ≡ find (λ x. x.number == number) objects.now }
{
    for object in objects {
        if object.number == number {
            return Some(*object);
        }
    }
    None
}

/// The object of a number, which may stand at a place.
#[inline(always)]
pub fn find_live(objects: &[Live], number: u64, place: usize) -> Option<Live>
    requires { Ascending objects.now 0 }
    ensures { result ≡ find (λ x. x.number == number) objects.now }
{
    if place < objects.len() && objects[place].number == number {
        return Some(objects[place]);
    }
    search_live(objects, number)
}

/// The index of the cell to which a pointer points, if its object lives and has that cell.
#[inline(always)]
pub fn index_at(objects: &[Live], p: Pointer) -> Option<usize>
    requires { Ascending objects.now 0 }
    ensures { result ≡ index_of p.offset (find (λ x. x.number == p.object) objects.now) }
{
    match find_live(objects, p.object, p.place) {
        Some(object) if p.offset < object.length => Some(object.first + p.offset as usize),
        _ => None,
    }
}

/// The cell of a literal to which a pointer points.
#[inline(always)]
pub fn letter_at(literals: &[Literal], l: Letter) -> Option<Cell>
    ensures { option_map cell_of result ≡ cell_in (letters (slice_get literals.now l.literal)) l.offset }
{
    let Some(literal) = literals.get(l.literal as usize) else {
        return None;
    };
    match literal.letter(l.offset) {
        Some(word) => Some(Cell::Holds(Value::Word(word))),
        None => None,
    }
}

/// What a write to a literal comes to.
pub fn literal_act(literals: &[Literal], kind: Kind, l: Letter) -> Act
    ensures { (s : Stack) (v : plain.Value) → write_cell kind (cell_in (letters (slice_get literals.now l.literal)) l.offset) s (plain.Letter l.literal l.offset) v ≡ Err result }
{
    match letter_at(literals, l) {
        Some(cell) => {
            if holds_no_other(kind, cell) {
                Act::LiteralWrite
            } else {
                Act::OtherKind
            }
        }
        None => Act::OutsideObject,
    }
}

/// How many of the oldest objects have numbers below this one, where the numbers ascend.
pub fn count_below(objects: &[Live], number: u64) -> usize
    ensures { OldestBelow objects.now number result }
{
    let mut count = objects.len();
    while count > 0 && objects[count - 1].number >= number {
        count -= 1;
    }
    count
}
