// The refusal that is told of a tree, by its parts and its own rules.

ghost use Rattle.std.specs.Prelude.{◌≡◌, [], ◌∷◌};
ghost use Rattle.c_types.specs.Refusals.{broken};
ghost use Rattle.c_conditions.specs.Told as plain;

use c_operands::{Judged, least_of, merged};
use c_types::TypeFault;

/// A part that is judged: the refusal of the rules that its value breaks, or its own.
pub type Tested = Judged<Option<TypeFault>>;

/// The refusal of one rule.
pub fn broken(kept: bool, fault: TypeFault) -> Option<TypeFault>
    ensures { result ≡ broken ((kept, fault) ∷ []) }
{
    if kept { None } else { Some(fault) }
}

/// A part beside another one.
pub fn beside(part: Tested, other: Option<TypeFault>) -> Tested
    ensures { result ≡ plain.beside part other }
{
    match part {
        Ok(own) => match other {
            None => Ok(own),
            Some(fault) => Err(fault),
        },
        Err(fault) => Err(least_of(fault, other)),
    }
}

/// What is told of a tree at the end.
pub fn settled(part: Tested) -> Option<TypeFault>
    ensures { result ≡ plain.settled part }
{
    match part {
        Ok(own) => own,
        Err(fault) => Some(fault),
    }
}

/// What is told of a tree whose first part has no rules.
pub fn behind(first: Option<TypeFault>, part: Tested) -> Option<TypeFault>
    ensures { result ≡ plain.behind first part }
{
    match first {
        None => settled(part),
        Some(fault) => Some(least_of(fault, part.err())),
    }
}

/// What is told of a tree with two parts, whose rules are those of both.
pub fn together(first: Tested, second: Tested) -> Option<TypeFault>
    ensures { result ≡ plain.together first second }
{
    match first {
        Ok(own) => match second {
            Ok(other) => merged(own, other),
            Err(fault) => Some(fault),
        },
        Err(fault) => Some(least_of(fault, second.err())),
    }
}
