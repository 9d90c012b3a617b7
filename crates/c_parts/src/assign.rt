// Instructions that read and write places.

ghost use Rattle.std.specs.Prelude.{◌≡◌, ◌∷◌, ◌<◌, ◌^◌, []};
ghost use Rattle.c_store.specs.Shown.{value_of, shown};
ghost use Rattle.c_plain.specs.Machine.{quiet, unless_act, pushed, on_top, on_two};
ghost use Rattle.c_plain.specs.Operators.{converted};
ghost use Rattle.c_plain.specs.Rule.{assigned, updated, stepped, set_first, place_in};
ghost use Rattle.c_parts.specs.Parts.{machine_of, ComesQuietly};

use crate::halt::Halt;
use crate::operate::operated;
use crate::parts::Parts;
use crate::words::converted;
use c_plain::{First, Operation, Step};
use c_store::{Act, Kind, Literal, Value, at_offset};
use word24::Word;

/// Writes the value on top to the place below it.
#[inline(always)]
pub fn assign(parts: &mut Parts, literals: &[Literal], kind: Kind) -> Result<(), Halt>
    requires { parts.old.at < 2 ^ 32 }
    ensures { ComesQuietly (machine_of parts.old) (machine_of parts.new) result (on_two (machine_of parts.old).values.mine (λ x y rest. assigned literals.now (machine_of parts.old) kind x (converted kind y) rest)) }
{
    let Some(y) = parts.values.pop() else {
        return Err(Halt::Act(Act::HelperLimit));
    };
    let Some(x) = parts.values.top() else {
        return Err(Halt::Act(Act::HelperLimit));
    };
    let v = converted(kind, y);
    match parts.store.store(literals, kind, x, v) {
        Ok(()) => {
            parts.values.replace(v);
            parts.at += 1;
            Ok(())
        }
        Err(act) => Err(Halt::Act(act)),
    }
}

/// Writes to the place below the value on top what the operator gives of the place's value and it.
#[inline(always)]
pub fn update(
    parts: &mut Parts,
    literals: &[Literal],
    kind: Kind,
    operation: Operation,
) -> Result<(), Halt>
    requires { parts.old.at < 2 ^ 32 }
    ensures { ComesQuietly (machine_of parts.old) (machine_of parts.new) result (on_two (machine_of parts.old).values.mine (λ x y rest. updated literals.now (machine_of parts.old) kind operation x y rest)) }
{
    let Some(y) = parts.values.pop() else {
        return Err(Halt::Act(Act::HelperLimit));
    };
    let Some(x) = parts.values.top() else {
        return Err(Halt::Act(Act::HelperLimit));
    };
    let old = match parts.store.load(literals, kind, x) {
        Ok(old) => old,
        Err(act) => return Err(Halt::Act(act)),
    };
    let new = match operated(literals, &parts.store, operation, old, y) {
        Ok(new) => converted(kind, new),
        Err(act) => return Err(Halt::Act(act)),
    };
    match parts.store.store(literals, kind, x, new) {
        Ok(()) => {
            parts.values.replace(new);
            parts.at += 1;
            Ok(())
        }
        Err(act) => Err(Halt::Act(act)),
    }
}

/// Steps the place on top.
#[inline(always)]
pub fn step_place(parts: &mut Parts, literals: &[Literal], step: Step) -> Result<(), Halt>
    requires { parts.old.at < 2 ^ 32 }
    ensures { ComesQuietly (machine_of parts.old) (machine_of parts.new) result (on_top (machine_of parts.old).values.mine (λ v rest. stepped literals.now (machine_of parts.old) step v rest)) }
{
    let Some(place) = parts.values.top() else {
        return Err(Halt::Act(Act::HelperLimit));
    };
    let old = match parts.store.load(literals, step.kind, place) {
        Ok(old) => old,
        Err(act) => return Err(Halt::Act(act)),
    };
    let new = match operated(
        literals,
        &parts.store,
        step.operation,
        old,
        Value::Word(Word::wrap(1)),
    ) {
        Ok(new) => new,
        Err(act) => return Err(Halt::Act(act)),
    };
    match parts
        .store
        .store(literals, step.kind, place, converted(step.kind, new))
    {
        Ok(()) => {
            parts.values.replace(if step.gives_old { old } else { new });
            parts.at += 1;
            Ok(())
        }
        Err(act) => Err(Halt::Act(act)),
    }
}

/// The pointer to the object in a slot, at an offset.
#[inline(always)]
pub fn place_in(parts: &Parts, at: First) -> Result<Value, Act>
    ensures { shown result ≡ place_in (machine_of parts.now) at.slot at.offset }
{
    match parts.slots.get(at.slot) {
        Some(Value::Point(p)) => Ok(at_offset(Value::Point(p), at.offset)),
        _ => Err(Act::OutsideObject),
    }
}

/// Pushes the pointer to the object in a slot.
#[inline(always)]
pub fn push_slot(parts: &mut Parts, slot: u32) -> Result<(), Halt>
    requires { parts.old.at < 2 ^ 32 }
    ensures { ComesQuietly (machine_of parts.old) (machine_of parts.new) result (unless_act (place_in (machine_of parts.old) slot 0) (λ v. quiet (pushed (machine_of parts.old) (machine_of parts.old).values.mine v))) }
{
    match place_in(parts, First { slot, offset: 0 }) {
        Ok(p) => parts.push(p),
        Err(act) => Err(Halt::Act(act)),
    }
}

/// Writes the value on top to a cell of the object in a slot.
#[inline(always)]
pub fn set_one(parts: &mut Parts, literals: &[Literal], at: First, kind: Kind) -> Result<(), Halt>
    requires { parts.old.at < 2 ^ 32 }
    ensures { ComesQuietly (machine_of parts.old) (machine_of parts.new) result (on_top (machine_of parts.old).values.mine (λ v rest. set_first literals.now (machine_of parts.old) at ((kind, converted kind v) ∷ []) rest)) }
{
    let Some(v) = parts.values.pop() else {
        return Err(Halt::Act(Act::HelperLimit));
    };
    let place = match place_in(parts, at) {
        Ok(place) => place,
        Err(act) => return Err(Halt::Act(act)),
    };
    match parts.store.store(literals, kind, place, converted(kind, v)) {
        Ok(()) => {
            parts.at += 1;
            Ok(())
        }
        Err(act) => Err(Halt::Act(act)),
    }
}
