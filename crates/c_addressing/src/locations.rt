// Locations, and values that need no evaluation.

ghost use Rattle.std.specs.Prelude.{◌≡◌, ℕ, ◌-◌, ◌%◌, ◌^◌};
ghost use Rattle.c_lowered.specs.Locations as plain;
ghost use Rattle.c_counted.specs.Numbers.{IsNumber};
ghost use Rattle.c_addressing.specs.Classes.{held_by};
ghost use Rattle.c_addressing.specs.Places.{IsLocation, IsDirect, IsDirectOrNone};

use c_counted::plus;
use c_emission::{Direct, Location};
use c_operands::Class;

/// The location so many words behind.
pub fn shifted(place: Location, words: u32) -> Location
    ensures { (l : plain.Location) (n : ℕ) → IsLocation place l → IsNumber words n → IsLocation result (plain.shifted n l) }
{
    match place {
        Location::Fixed(address) => Location::Fixed(plus(address, words)),
        Location::Framed(offset) => Location::Framed(plus(offset, words)),
    }
}

/// The address of a location.
pub fn address_of(place: Location) -> Direct
    ensures { (l : plain.Location) → IsLocation place l → IsDirect result (plain.address_of l) }
{
    match place {
        Location::Fixed(address) => Direct::Exactly(address),
        Location::Framed(offset) => Direct::Address(offset),
    }
}

/// What a place of a class is worth.
pub fn held(class: Class, place: Location) -> Option<Direct>
    ensures { (l : plain.Location) → IsLocation place l → IsDirectOrNone result (held_by class l) }
{
    match class {
        Class::Array => Some(address_of(place)),
        Class::Struct => None,
        Class::Signed => Some(Direct::Stored(place)),
        Class::Unsigned => Some(Direct::Stored(place)),
        Class::Void => Some(Direct::Stored(place)),
        Class::Null => Some(Direct::Stored(place)),
        Class::Function => Some(Direct::Stored(place)),
        Class::VoidPointer => Some(Direct::Stored(place)),
        Class::FunctionPointer => Some(Direct::Stored(place)),
        Class::ObjectPointer => Some(Direct::Stored(place)),
    }
}

/// 0 less this one.
pub fn opposite(word: u32) -> u32
    ensures { (n : ℕ) → IsNumber word n → IsNumber result ((2 ^ 24 - n % 2 ^ 24) % 2 ^ 24) }
{
    0u32.wrapping_sub(word)
}

/// Whether a value is the same whatever is written.
pub fn is_steady(value: Direct) -> bool
    ensures { (d : plain.Direct) → IsDirect value d → result ≡ plain.is_steady d }
{
    match value {
        Direct::Exactly(_word) => true,
        Direct::Address(_offset) => true,
        Direct::Stored(_place) => false,
    }
}
