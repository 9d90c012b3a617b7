// The check of a whole tree.

ghost use Rattle.std.specs.Prelude.{◌≡◌, ℕ, ◌⊎◌, ◌&&◌, true, List, [], ◌∷◌, map, Ok, Err, IfOk};
ghost use Rattle.std.specs.List.{list_any};
ghost use Rattle.c_syntax.specs.Plain.{CUnit};
ghost use Rattle.c_syntax.specs.View.{item_of, unit_of};
ghost use Rattle.c_types.specs.Scope.{contains};
ghost use Rattle.c_declared.specs.Held.{Holds};
ghost use Rattle.c_opening.specs.Named.{tags_in, HasNumber};
ghost use Rattle.c_types.specs.declared.fault.TypeFault.{TypeFault};
ghost use Rattle.c_types.specs.declared.fault.TypeFault.TheVariants.{Memory, TooLarge};
ghost use Rattle.c_types.specs.Refusals.{keeping};
ghost use Rattle.c_types.specs.Units.{start_scope, is_main};
ghost use Rattle.c_types.specs.Limits.{is_small, weight_of, answer_to};
ghost use Rattle.c_types.specs.Typed.{plain_of, weight_in};
ghost use Rattle.c_check.specs.Items.{AreTaken};

use crate::items::{Taken, take_items};
use c_opening::{has_main, open};
use c_operands::{Declarations, Judged};
use c_syntax::tree::Unit;
use c_types::{TypeFault, Typed, Types, answers_are_of_typed_texts};
use std::alloc::{AllocError, Global};

// Whether all three are so.
fn all_so(one: bool, other: bool, third: bool) -> bool
    ensures { result ≡ (one && other && third) }
{
    one && other && third
}

// Whether externals are within the limits.
fn is_small(taken: &Taken) -> bool
    ensures { (u : CUnit) → AreTaken taken.now (start_scope u) u.items → result ≡ is_small u }
{
    let is_light = taken.sum.weight.at_most(65536);
    let is_short = taken.words.at_most(4194304);
    all_so(is_light, is_short, !taken.sum.is_wide)
}

// The weight of a text of these externals, which is typed, or that it is too large.
fn within(taken: &Taken) -> Judged<u32>
    ensures { (u : CUnit) → AreTaken taken.now (start_scope u) u.items → result ≡ keeping ((is_small u, TooLarge) ∷ []) (weight_of u) }
{
    if is_small(taken) {
        Ok(taken.sum.weight.low().get())
    } else {
        Err(TypeFault::TooLarge)
    }
}

// The answer to a text of these externals.
fn answer(taken: &Taken, has_main: bool, end: u32) -> Judged<u32>
    ensures { (u : CUnit) → AreTaken taken.now (start_scope u) u.items → has_main ≡ list_any is_main u.items → end ≡ u.end → result ≡ answer_to u }
{
    match taken.refusal {
        Some(fault) => Err(fault),
        None => {
            if has_main {
                within(taken)
            } else {
                Err(TypeFault::NoMain(end))
            }
        }
    }
}

// The answer to a tree, from what is declared before its first external.
fn judge_opened<'t>(
    types: Types<'t>,
    declared: Declarations<'t>,
    unit: &'t Unit,
) -> Result<Judged<u32>, AllocError>
    requires holds { Holds types declared (start_scope (unit_of unit.now)) }
    requires numbered { (name : List ℕ) → contains (tags_in (map item_of unit.now.items.items.items)) name ≡ true → HasNumber types name }
    ensures { IfOk result (λ r. r ≡ answer_to (unit_of unit.now)) }
{
    let mut types = types;
    let mut declared = declared;
    let items = unit.items.items.as_slice();
    let taken = take_items(&mut types, &mut declared, items)?;
    Ok(answer(&taken, has_main(items), unit.end))
}

// The answer to a tree.
fn judge(alloc: Global, unit: &Unit) -> Result<Judged<u32>, AllocError>
    ensures { IfOk result (λ r. r ≡ answer_to (unit_of unit.now)) }
{
    let opening = open(alloc, unit)?;
    judge_opened(opening.types, opening.declared, unit)
}

// The typed tree that an answer gives, or its refusal.
fn settled(unit: Unit, judged: Judged<u32>) -> Result<Typed, TypeFault>
    requires { judged ≡ answer_to (unit_of unit) }
    ensures unit { IfOk result (λ t. plain_of t ≡ unit_of unit) }
    ensures accepted { IfOk result (λ t. answer_to (unit_of unit) ≡ Ok (weight_in t)) }
    ensures small { IfOk result (λ t. is_small (plain_of t) ≡ true) }
    ensures refused { (fault : TypeFault) → result ≡ Err fault → answer_to (unit_of unit) ≡ Err fault }
{
    answers_are_of_typed_texts();
    match judged {
        Ok(weight) => Ok(Typed::of(unit, weight)),
        Err(fault) => Err(fault),
    }
}

/// The check of a tree: it is typed and within the limits on weight and words, or it is refused. Of several refusals
/// the lowest place is told, and at one place the first; a text without `main` comes after all with a place, and one
/// that is too large after that.
pub fn check(alloc: Global, unit: Unit) -> Result<Typed, TypeFault>
    ensures unit { IfOk result (λ t. plain_of t ≡ unit_of unit) }
    ensures accepted { IfOk result (λ t. answer_to (unit_of unit) ≡ Ok (weight_in t)) }
    ensures small { IfOk result (λ t. is_small (plain_of t) ≡ true) }
    ensures refused { (fault : TypeFault) → result ≡ Err fault → (fault ≡ Memory) ⊎ (answer_to (unit_of unit) ≡ Err fault) }
{
    match judge(alloc, &unit) {
        Ok(judged) => settled(unit, judged),
        Err(_) => Err(TypeFault::Memory),
    }
}
