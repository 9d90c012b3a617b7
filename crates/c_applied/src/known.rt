// Values that need no evaluation.

ghost use Rattle.std.specs.Prelude.{◌≡◌, ℕ, ◌+◌, [], IfOk, OnOk};
ghost use Rattle.c_syntax.specs.View.{expr_of};
ghost use Rattle.c_eval.specs.Environment.{Environment};
ghost use Rattle.c_declared.specs.Held.{HoldsSome};
ghost use Rattle.c_lowered.specs.Locations as plain;
ghost use Rattle.c_lowered.specs.Locations.{Linking};
ghost use Rattle.c_lowered.specs.Operations;
ghost use Rattle.c_lowered.specs.Counts.{expr_jumps};
ghost use Rattle.c_lowered.specs.Expressions as definition;
ghost use Rattle.c_counted.specs.Numbers.{IsNumber};
ghost use Rattle.c_addressing.specs.Here.{IsHere, IsBehind, Emits};
ghost use Rattle.c_addressing.specs.Places.{IsDirect};
ghost use Rattle.c_applied.specs.Leads.{Leads, Keeps, MayLead, literal_count};
ghost use Rattle.c_applied.specs.Pieces.{IsLeaf};

use c_addressing::{Here, Known, Literals, Output, direct, load};
use c_counted::{jumps_of, plus};
use c_syntax::tree::Expr;
use eir_core::Reg;
use std::alloc::AllocError;

/// Literals are passed, those that come next being these.
pub fn pass<'t>(out: &mut Output<'t>, literals: Literals<'t>)
    ensures passed { (count : ℕ) → IsBehind out.old.literals literals.entry count → Emits out.old out.new [] count }
    ensures keeps { Keeps out.old out.new }
    ensures ops { out.new.ops ≡ out.old.ops }
    ensures literals { out.new.literals ≡ literals.entry }
{
    out.literals = literals;
}

/// A value that needs no evaluation comes into a register.
pub fn put_known<'t>(out: &mut Output<'t>, r: Reg, known: Known<'t>) -> Result<(), AllocError>
    ensures code { (x : plain.Direct) (count : ℕ) → IsDirect known.entry.value x → IsBehind out.old.literals known.entry.literals count → OnOk result (Emits out.old out.new (Operations.load_to r x) count) }
    ensures keeps { OnOk result (Keeps out.old out.new) }
{
    pass(out, known.literals);
    load(out, r, known.value)?;
    Ok(())
}

/// Code of an expression whose value needs no evaluation, and the block in which it ends.
pub fn known_value(
    out: &mut Output<'_>,
    here: &Here<'_>,
    e: &Expr,
    k: u32,
) -> Result<Option<u32>, AllocError>
    requires { HoldsSome out.old.types here.now.declared }
    ensures code { (w : Linking) (env : Environment) (m : ℕ) → IsHere here.now out.old w env → IsNumber k m → IfOk result (λ r. MayLead out.old out.new r (plain.direct (expr_of e.now) w env) (literal_count env.scope (expr_of e.now)) (m + expr_jumps (expr_of e.now))) }
    ensures keeps { OnOk result (Keeps out.old out.new) }
{
    let found = direct(out, here, e)?;
    match found {
        Some(known) => {
            put_known(out, Reg::A, known)?;
            Ok(Some(plus(k, jumps_of(e))))
        }
        None => Ok(None),
    }
}

/// Code of a constant, a string or a name.
pub fn leaf(out: &mut Output<'_>, here: &Here<'_>, e: &Expr, k: u32) -> Result<u32, AllocError>
    requires { HoldsSome out.old.types here.now.declared }
    ensures code { (w : Linking) (env : Environment) (m n : ℕ) → IsLeaf (expr_of e.now) → IsHere here.now out.old w env → IsNumber k m → IfOk result (λ r. Leads out.old out.new (definition.value_code (expr_of e.now) w env m n) (literal_count env.scope (expr_of e.now)) r (m + expr_jumps (expr_of e.now))) }
    ensures keeps { OnOk result (Keeps out.old out.new) }
{
    let found = known_value(out, here, e, k)?;
    match found {
        Some(behind) => Ok(behind),
        None => Ok(k),
    }
}
