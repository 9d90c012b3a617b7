// Where the string literals of functions lie.

ghost use Rattle.std.specs.Prelude.{◌≡◌, ◌∷◌, ℕ, List, length, take, drop, Some, None, map, option_map, IfOk, OnOk};
ghost use Rattle.c_eval.specs.Text.{Definition};
ghost use Rattle.c_lowered.specs.Whole.{literal_address};
ghost use Rattle.c_lower_data.specs.Letters.{AreAddresses};
ghost use Rattle.c_addressing.specs.Here.{first_or};
ghost use Rattle.c_lower.specs.Bodies.{AreEach, functions_literals};
ghost use Rattle.c_lower.specs.Placed.{found_literals, literals_in, owned_literals, AddsLiterals, PlacesLiterals};

use crate::bodies::Body;
use c_addressing::Literals;
use ordered::OrderedMap;
use std::alloc::{AllocError, Global};

/// The addresses of the literals of each function, by its name, and those of a name that is none's.
#[derive(Drop)]
pub struct Placed<'t> {
    pub known: OrderedMap<&'t [u8], Literals<'t>>,
    pub other: Literals<'t>,
}

// The literals that are known of a name.
fn known_of<'t>(known: &OrderedMap<&'t [u8], Literals<'t>>, name: &[u8]) -> Option<Literals<'t>>
    ensures { result ≡ found_literals known.now.entries name.now }
{
    match known.get(&name) {
        Some(literals) => Some(*literals),
        None => None,
    }
}

/// The literals of a function.
pub fn literals_of<'t>(placed: &Placed<'t>, name: &[u8]) -> Literals<'t>
    ensures { result ≡ literals_in placed.now name.now }
{
    match known_of(&placed.known, name) {
        Some(literals) => literals,
        None => placed.other,
    }
}

// Addresses behind so many others.
fn rest_of(addresses: &[u32], count: usize) -> &[u32]
    ensures { result.now ≡ drop count addresses.now }
{
    if count <= addresses.len() {
        &addresses[count..]
    } else {
        &[]
    }
}

// So many addresses.
fn front_of(addresses: &[u32], count: usize) -> &[u32]
    ensures { result.now ≡ take count addresses.now }
{
    if count <= addresses.len() {
        &addresses[..count]
    } else {
        addresses
    }
}

// The literals behind so many others.
fn behind(literals: Literals<'_>, count: usize) -> Literals<'_>
    ensures next { result.next.now ≡ drop count literals.entry.next.now }
    ensures end { result.end ≡ literals.entry.end }
{
    Literals {
        next: rest_of(literals.next, count),
        end: literals.end,
    }
}

// So many literals, and the address behind them.
fn first_literals(literals: Literals<'_>, count: usize) -> Literals<'_>
    ensures next { result.next.now ≡ take count literals.entry.next.now }
    ensures end { result.end ≡ first_or literals.entry.end (drop count literals.entry.next.now) }
{
    let last = behind(literals, count);
    Literals {
        next: front_of(literals.next, count),
        end: last.first(),
    }
}

// A function has these literals, if none of its name came before.
fn add_literals<'t>(
    known: &mut OrderedMap<&'t [u8], Literals<'t>>,
    name: &'t [u8],
    literals: Literals<'t>,
) -> Result<(), AllocError>
    ensures { OnOk result (AddsLiterals known.old.entries known.new.entries name.now literals.entry) }
{
    match known_of(known, name) {
        Some(_before) => Ok(()),
        None => {
            known.insert(name, literals)?;
            Ok(())
        }
    }
}

/// The literals of functions lie one behind the other at these addresses, and another one comes behind them.
pub fn place<'t>(
    alloc: Global,
    bodies: &[Body<'t>],
    addresses: &'t [u32],
    end: u32,
) -> Result<Placed<'t>, AllocError>
    ensures { (a : ℕ) (fs : List Definition) → AreEach bodies.now fs → AreAddresses addresses.now end a (functions_literals fs) → IfOk result (λ p. PlacesLiterals p (literal_address (map owned_literals fs) a)) }
{
    let mut known = OrderedMap::new(alloc);
    let mut other = Literals {
        next: addresses,
        end,
    };
    for body in bodies {
        let own = first_literals(other, body.count);
        add_literals(&mut known, body.name, own)?;
        other = behind(other, body.count);
    }
    Ok(Placed { known, other })
}
