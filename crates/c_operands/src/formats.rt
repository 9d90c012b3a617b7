// Formats of `printf`.

ghost use Rattle.std.specs.Prelude.{◌≡◌, ◌==◌, ◌∷◌, ℕ, List, drop, Bool, true, false, ◌&&◌, codes, option_map, MatchOption, if◌then◌else◌};
ghost use Rattle.std.specs.List.{list_any};
ghost use Rattle.c_types.specs.Types.{CType, Char, Pointer, same_type, is_arithmetic};
ghost use Rattle.c_types.specs.Operands as plain;
ghost use Rattle.c_types.specs.Operands.{value_type, is_print_form};
ghost use Rattle.c_types.specs.Table.{HasType};
ghost use Rattle.c_operands.specs.Arguments.{IsArgument, AreArguments, printed};

use crate::arguments::Argument;
use c_types::Types;

// Whether both are so.
fn both(first: bool, second: bool) -> bool
    ensures { result ≡ (first && second) }
{
    first && second
}

// The byte that begins a conversion.
fn is_percent(byte: u8) -> bool
    ensures { result ≡ (byte == 37) }
{
    byte == b'%'
}

// A letter of a conversion.
fn is_conversion(letter: u8) -> bool
    ensures { result ≡ list_any (λ c. letter == c) (codes "duxcs") }
{
    matches!(letter, b'd' | b'u' | b'x' | b'c' | b's')
}

// Whether an argument is what a conversion takes: a `char *`, whose type has the number `text`, or a number.
fn is_printed(types: &Types<'_>, text: usize, letter: u8, argument: Argument) -> bool
    ensures { (x : plain.Operand) → IsArgument types.now argument x → HasType types.now text (Pointer Char) → result ≡ (if letter == 115 then same_type (value_type x) (Pointer Char) else is_arithmetic (value_type x)) }
{
    if letter == b's' {
        types.is_same(argument.value.ty, text)
    } else {
        argument.value.class.is_number()
    }
}

// Whether a byte behind a percent is the letter of a conversion that takes an argument.
fn is_taken(types: &Types<'_>, text: usize, letter: u8, argument: Argument) -> bool
    ensures { (x : plain.Operand) → IsArgument types.now argument x → HasType types.now text (Pointer Char) → result ≡ (list_any (λ c. letter == c) (codes "duxcs") && (if letter == 115 then same_type (value_type x) (Pointer Char) else is_arithmetic (value_type x))) }
{
    let known = is_conversion(letter);
    let fits = is_printed(types, text, letter, argument);
    both(known, fits)
}

// Where in a format one is: whether behind a percent, and how many arguments are used.
#[derive(Clone, Copy)]
struct Place {
    behind: bool,
    used: usize,
}

// The place behind the letter of a conversion, if there is an argument for it.
fn converted(
    types: &Types<'_>,
    text: usize,
    letter: u8,
    used: usize,
    arguments: &[Argument],
) -> Option<Place>
    ensures { (xs : List plain.Operand) → letter == 37 ≡ false → HasType types.now text (Pointer Char) → AreArguments types.now arguments.now xs → MatchOption result ((format : List ℕ) → printed true (letter ∷ format) (drop used xs) ≡ false) (λ next. (format : List ℕ) → printed true (letter ∷ format) (drop used xs) ≡ printed next.behind format (drop next.used xs)) }
{
    match arguments.get(used) {
        None => None,
        Some(argument) => {
            if is_taken(types, text, letter, *argument) {
                Some(Place {
                    behind: false,
                    used: used + 1,
                })
            } else {
                None
            }
        }
    }
}

// The place one byte further, if the format and the arguments agree so far.
fn advanced(
    types: &Types<'_>,
    text: usize,
    byte: u8,
    place: Place,
    arguments: &[Argument],
) -> Option<Place>
    ensures { (xs : List plain.Operand) → HasType types.now text (Pointer Char) → AreArguments types.now arguments.now xs → MatchOption result ((format : List ℕ) → printed place.behind (byte ∷ format) (drop place.used xs) ≡ false) (λ next. (format : List ℕ) → printed place.behind (byte ∷ format) (drop place.used xs) ≡ printed next.behind format (drop next.used xs)) }
{
    let behind = place.behind;
    let used = place.used;
    let percent = is_percent(byte);
    if behind {
        if percent {
            Some(Place {
                behind: false,
                used,
            })
        } else {
            converted(types, text, byte, used, arguments)
        }
    } else {
        Some(Place {
            behind: percent,
            used,
        })
    }
}

// Whether the arguments but the first one are those of a format: one for each conversion.
fn agree(types: &Types<'_>, text: usize, format: &[u8], arguments: &[Argument]) -> bool
    ensures { (xs : List plain.Operand) → HasType types.now text (Pointer Char) → AreArguments types.now arguments.now xs → result ≡ printed false format.now (drop 1 xs) }
{
    let mut place = Place {
        behind: false,
        used: 1,
    };
    for byte in format {
        match advanced(types, text, *byte, place, arguments) {
            Some(next) => place = next,
            None => return false,
        }
    }
    both(!place.behind, place.used >= arguments.len())
}

// Whether the arguments are a format, which is a string, and what it takes. A `char *` has the number `text`.
pub fn is_print_form(
    types: &Types<'_>,
    text: usize,
    format: Option<&[u8]>,
    arguments: &[Argument],
) -> bool
    ensures { (xs : List plain.Operand) → HasType types.now text (Pointer Char) → AreArguments types.now arguments.now xs → result ≡ is_print_form (option_map (λ f. f.now) format.entry) xs }
{
    match format {
        Some(format) => {
            let fits = agree(types, text, format, arguments);
            both(!arguments.is_empty(), fits)
        }
        None => false,
    }
}
