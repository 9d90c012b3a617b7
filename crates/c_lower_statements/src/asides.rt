// Code that is made before the code in front of it: the step of a `for`, whose string literals come before those of the
// body behind which it stands.

ghost use Rattle.std.specs.Prelude.{◌≡◌, ◌++◌, ℕ, length, IfOk, OnOk};
ghost use Rattle.c_syntax.specs.View.{maybe};
ghost use Rattle.c_eval.specs.Environment.{Environment};
ghost use Rattle.c_eval.specs.LiteralsIn.{maybe_literals};
ghost use Rattle.c_declared.specs.Held.{HoldsSome};
ghost use Rattle.c_lowered.specs.Locations.{Linking};
ghost use Rattle.c_lowered.specs.Statements.{maybe_effect_code};
ghost use Rattle.c_counted.specs.Numbers.{IsNumber};
ghost use Rattle.c_addressing.specs.Here.{IsHere, Emits};
ghost use Rattle.c_applied.specs.Leads.{Keeps};
ghost use Rattle.c_lower_statements.specs.Pieces.{IsAside};

use c_addressing::{Here, Output};
use c_lower_simple::maybe_effect;
use c_syntax::tree::Expr;
use eir_core::Op;
use std::alloc::AllocError;
use std::mem;

// Operations take the place of the code so far, which is the answer.
fn exchange(out: &mut Output<'_>, ops: Vec<Op>) -> Vec<Op>
    ensures before { result.items ≡ out.old.ops.items }
    ensures ops { out.new.ops.items ≡ ops.items }
    ensures types { out.new.types ≡ out.old.types }
    ensures literals { out.new.literals ≡ out.old.literals }
{
    mem::replace(&mut out.ops, ops)
}

/// The code of a step is made and set aside: it is the answer, and its literals are passed.
pub fn step_aside(
    out: &mut Output<'_>,
    here: &Here<'_>,
    step: &Option<Expr>,
    k: u32,
    d: u32,
) -> Result<Vec<Op>, AllocError>
    requires { HoldsSome out.old.types here.now.declared }
    ensures code { (w : Linking) (env : Environment) (m n : ℕ) → IsHere here.now out.old w env → IsNumber k m → IsNumber d n → IfOk result (λ ops. IsAside out.old out.new ops.items (maybe_effect_code (maybe step.now) w env m n) (length (maybe_literals env.scope (maybe step.now)))) }
    ensures keeps { OnOk result (Keeps out.old out.new) }
{
    let nothing = Vec::new(here.declared.alloc);
    let front = exchange(out, nothing);
    maybe_effect(out, here, step, k, d)?;
    let made = exchange(out, front);
    Ok(made)
}

// Operations more.
fn put_all(ops: &mut Vec<Op>, more: &[Op]) -> Result<(), AllocError>
    ensures { OnOk result (ops.new.items ≡ ops.old.items ++ more.now) }
{
    ops.extend_from_slice(more)?;
    Ok(())
}

/// Code that was set aside stands behind the code so far.
pub fn append(out: &mut Output<'_>, more: &[Op]) -> Result<(), AllocError>
    ensures { OnOk result (Emits out.old out.new more.now 0) }
{
    put_all(&mut out.ops, more)?;
    Ok(())
}
