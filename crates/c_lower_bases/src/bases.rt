// Where the objects of file scope lie: those with first values from one address on, and the others from another.

ghost use Rattle.std.specs.Prelude.{◌≡◌, ◌+◌, ℕ, false, if◌then◌else◌, unwrap_or, slice_get, min, IfOk};
ghost use Rattle.c_lowered.specs.Locations as plain;
ghost use Rattle.c_counted.specs.Numbers.{IsNumber};
ghost use Rattle.c_addressing.specs.Places.{IsLocation, AreLocations};
ghost use Rattle.c_lower_bases.specs.Bases.{words_of_one, words_over, bases_over, AreEnds};

use c_counted::plus;
use c_emission::Location;
use std::alloc::{AllocError, Global};
use word24::Word;

/// The address behind the objects with first values so far, and that behind the others.
#[derive(Clone, Copy)]
pub struct Ends {
    pub given: u32,
    pub other: u32,
}

/// A number of words, modulo 2^24.
pub fn low(count: usize) -> u32
    ensures { IsNumber result count }
{
    Word::wrap(count as u64).get()
}

// Whether the object of a number has a first value.
fn given_at(given: &[bool], index: usize) -> bool
    ensures { result ≡ unwrap_or (slice_get given.now index) false }
{
    match given.get(index) {
        Some(first) => *first,
        None => false,
    }
}

// How many cells the object of a number has.
fn size_at(sizes: &[usize], index: usize) -> usize
    ensures { result ≡ unwrap_or (slice_get sizes.now index) 0 }
{
    match sizes.get(index) {
        Some(size) => *size,
        None => 0,
    }
}

// The lower one of two counts.
fn least(a: usize, b: usize) -> usize
    ensures { result ≡ min a b }
{
    if a < b { a } else { b }
}

// The words of an object, if it is one of those that are wanted.
fn words_of(wanted: bool, given: bool, size: usize) -> u32
    ensures { IsNumber result (words_of_one wanted given size) }
{
    if given == wanted { low(size) } else { 0 }
}

/// The words of the objects with first values, or of the others.
pub fn words_given(wanted: bool, given: &[bool], sizes: &[usize]) -> u32
    ensures { IsNumber result (words_over wanted given.now sizes.now) }
{
    let firsts = given.len();
    let all = sizes.len();
    let count = least(firsts, all);
    let mut words = 0;
    for index in 0..count {
        let first = given_at(given, index);
        let size = size_at(sizes, index);
        let own = words_of(wanted, first, size);
        words = plus(words, own);
    }
    words
}

// Where the next object lies.
fn base_at(given: bool, ends: Ends) -> Location
    ensures { (a b : ℕ) → AreEnds ends a b → IsLocation result (if given then plain.Fixed a else plain.Fixed b) }
{
    if given {
        Location::Fixed(ends.given)
    } else {
        Location::Fixed(ends.other)
    }
}

// The addresses behind it.
fn ends_behind(given: bool, ends: Ends, size: usize) -> Ends
    ensures { (a b : ℕ) → AreEnds ends a b → AreEnds result (if given then a + size else a) (if given then b else b + size) }
{
    if given {
        Ends {
            given: plus(ends.given, low(size)),
            other: ends.other,
        }
    } else {
        Ends {
            given: ends.given,
            other: plus(ends.other, low(size)),
        }
    }
}

/// Where the objects lie, from these addresses on.
pub fn file_bases(
    alloc: Global,
    given: &[bool],
    sizes: &[usize],
    from: Ends,
) -> Result<Vec<Location>, AllocError>
    ensures { (a b : ℕ) → AreEnds from a b → IfOk result (λ v. AreLocations v.items (bases_over given.now sizes.now a b)) }
{
    let firsts = given.len();
    let all = sizes.len();
    let count = least(firsts, all);
    let mut bases = Vec::new(alloc);
    let mut ends = from;
    for index in 0..count {
        let first = given_at(given, index);
        let size = size_at(sizes, index);
        let base = base_at(first, ends);
        bases.push(base)?;
        ends = ends_behind(first, ends, size);
    }
    Ok(bases)
}
