// Whole bodies, by their steps.

ghost use Rattle.std.specs.Prelude.{◌≡◌, IfOk};
ghost use Rattle.c_syntax.specs.View.{stmt_of};
ghost use Rattle.c_helper_steps.specs.Postfix.{made};

use crate::making::step;
use crate::parts::Parts;
use crate::steps::Step;
use c_syntax::tree::Stmt;
use std::alloc::{AllocError, Global};

/// The statement that steps make.
pub fn made(alloc: Global, steps: &[Step<'_>]) -> Result<Stmt, AllocError>
    ensures { IfOk result (λ s. stmt_of s ≡ made steps.now) }
{
    let mut parts = Parts::start(alloc);
    for next in steps {
        step(alloc, &mut parts, *next)?;
    }
    Ok(parts.take_statement())
}
