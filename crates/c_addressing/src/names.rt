// Names of objects and of functions.

ghost use Rattle.std.specs.Prelude.{◌≡◌, ℕ, ◌++◌};
ghost use Rattle.c_syntax.specs.Words.{meaning};
ghost use Rattle.c_types.specs.Scope.{entity_of};
ghost use Rattle.c_eval.specs.Environment.{Environment};
ghost use Rattle.c_declared.specs.Held.{HoldsSome};
ghost use Rattle.c_lowered.specs.Locations as plain;
ghost use Rattle.c_lowered.specs.Locations.{Linking};
ghost use Rattle.c_counted.specs.Numbers.{IsNumber};
ghost use Rattle.c_addressing.specs.Here.{IsHere};
ghost use Rattle.c_addressing.specs.Names.{number_in, located_in, entry_in};
ghost use Rattle.c_addressing.specs.Places.{IsLocation, IsDirectOrNone};

use crate::here::{Here, Output};
use crate::locations::held;
use c_emission::{Direct, Location};
use c_operands::class_of;
use c_scopes::Entity;
use ordered::OrderedMap;

// The number that an entity is, if it is one.
fn number_in(entity: Option<Entity>) -> Option<usize>
    ensures { result ≡ number_in entity }
{
    match entity {
        Some(found) => match found {
            Entity::Object(number) => Some(number),
            Entity::Routine(_, _) => None,
            Entity::BuiltIn(_) => None,
            Entity::Printf => None,
        },
        None => None,
    }
}

// Where the object of a number lies.
fn located_in(bases: &[Location], number: Option<usize>) -> Location
    ensures { result ≡ located_in bases.now number }
{
    match number {
        Some(n) => match bases.get(n) {
            Some(place) => *place,
            None => Location::Fixed(0),
        },
        None => Location::Fixed(0),
    }
}

// The first block of a function among those.
fn entry_in(entries: &OrderedMap<&[u8], u32>, name: &[u8]) -> u32
    ensures { result ≡ entry_in entries.now.entries name.now }
{
    match entries.get(&name) {
        Some(block) => *block,
        None => 0,
    }
}

/// The first block of a function.
pub fn entry_of(here: &Here<'_>, name: &[u8]) -> u32
    ensures { (out : _) (w : Linking) (env : Environment) → IsHere here.now out w env → IsNumber result (w.entry name.now) }
{
    entry_in(&here.entries, name)
}

/// Where the object of a name lies.
pub fn located(here: &Here<'_>, name: &[u8]) -> Location
    ensures { (out : _) (w : Linking) (env : Environment) → IsHere here.now out w env → IsLocation result (plain.located w (meaning env.objects name.now)) }
{
    located_in(here.bases.as_slice(), number_in(here.slots.get(name)))
}

/// What a name is worth, where it needs no evaluation: an object by its class, or else the function.
pub fn named(out: &Output<'_>, here: &Here<'_>, name: &[u8]) -> Option<Direct>
    requires { HoldsSome out.now.types here.now.declared }
    ensures { (w : Linking) (env : Environment) → IsHere here.now out.now w env → IsDirectOrNone result (plain.named_direct w env name.now (entity_of env.scope name.now)) }
{
    match number_in(here.declared.names.get(name)) {
        Some(ty) => held(class_of(&out.types, ty), located(here, name)),
        None => Some(Direct::Exactly(entry_of(here, name))),
    }
}
