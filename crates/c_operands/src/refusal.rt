// Refusals, and the one of several that is told.

ghost use Rattle.std.specs.Prelude.{◌≡◌, Bool, [], ◌∷◌};
ghost use Rattle.c_types.specs.Refusals.{place_of, number_of, comes_before, least, keeping, broken};
ghost use Rattle.c_types.specs.Operands as plain;
ghost use Rattle.c_types.specs.Table.{Table};
ghost use Rattle.c_operands.specs.Seen.{IsOperand, IsJudged};

use crate::operand::Operand;
use c_types::TypeFault;

/// What something is, or why it is refused.
pub type Judged<T> = Result<T, TypeFault>;

fn place_of(fault: TypeFault) -> u32
    ensures { result ≡ place_of fault }
{
    match fault {
        TypeFault::Unknown(at)
        | TypeFault::Twice(at)
        | TypeFault::Mismatch(at)
        | TypeFault::NotLvalue(at)
        | TypeFault::BadCall(at)
        | TypeFault::NoMain(at) => at,
        TypeFault::TooLarge | TypeFault::Memory => 0,
    }
}

fn number_of(fault: TypeFault) -> u32
    ensures { result ≡ number_of fault }
{
    match fault {
        TypeFault::Unknown(_) => 1,
        TypeFault::Twice(_) => 2,
        TypeFault::Mismatch(_) => 3,
        TypeFault::NotLvalue(_) => 4,
        TypeFault::BadCall(_) => 5,
        TypeFault::NoMain(_) => 6,
        TypeFault::TooLarge => 7,
        TypeFault::Memory => 8,
    }
}

fn comes_before(d: TypeFault, e: TypeFault) -> bool
    ensures { result ≡ comes_before d e }
{
    place_of(d) < place_of(e) || (place_of(d) == place_of(e) && number_of(d) < number_of(e))
}

/// The refusal of two that is told: at the lower place, and at one place of the lower number.
pub fn least(d: TypeFault, e: TypeFault) -> TypeFault
    ensures { result ≡ least d e }
{
    if comes_before(e, d) { e } else { d }
}

/// What an expression is, if it keeps its one rule.
pub fn one_rule(kept: bool, fault: TypeFault, a: Operand) -> Judged<Operand>
    ensures { (table : Table) (x : plain.Operand) → IsOperand table a x → IsJudged (IsOperand table) result (keeping ((kept, fault) ∷ []) x) }
{
    if kept { Ok(a) } else { Err(fault) }
}

// The refusal of two rules.
fn broken(first: bool, d: TypeFault, second: bool, e: TypeFault) -> Option<TypeFault>
    ensures { result ≡ broken ((first, d) ∷ (second, e) ∷ []) }
{
    match (first, second) {
        (true, true) => None,
        (true, false) => Some(e),
        (false, true) => Some(d),
        (false, false) => Some(least(d, e)),
    }
}

/// What an expression is, if it keeps its two rules.
pub fn two_rules(
    first: bool,
    d: TypeFault,
    second: bool,
    e: TypeFault,
    a: Operand,
) -> Judged<Operand>
    ensures { (table : Table) (x : plain.Operand) → IsOperand table a x → IsJudged (IsOperand table) result (keeping ((first, d) ∷ (second, e) ∷ []) x) }
{
    match broken(first, d, second, e) {
        Some(fault) => Err(fault),
        None => Ok(a),
    }
}
