// Code of functions.

ghost use Rattle.std.specs.Prelude.{◌≡◌, ◌≤◌, ◌+◌, ℕ, length, IfOk, OnOk};
ghost use Rattle.c_syntax.specs.View.{decls_of, stmt_of};
ghost use Rattle.c_declared.specs.Held.{HoldsSome};
ghost use Rattle.c_census.specs.Sums.{HoldsWith};
ghost use Rattle.c_addressing.specs.declared.here.Here as rust;
ghost use Rattle.c_lower.specs.Functions.{IsWithin, AreForgotten, LowersBody, LowersFunction};

use crate::parameters::enter_parameters;
use c_addressing::{Here, Output, returned};
use c_cells::StructKinds;
use c_counted::next;
use c_lower_blocks::Block;
use c_lower_statements::{Targets, statement};
use c_signatures::{Signature, enter_body, leave_body};
use c_syntax::tree::{Decl, Stmt};
use std::alloc::AllocError;

// Code of a function's body, whose parameters are known, and of the return behind it.
fn body_code<'t>(
    out: &mut Output<'_>,
    structs: &StructKinds,
    here: &mut Here<'t>,
    body: &'t Stmt,
    free: u32,
    k: u32,
) -> Result<u32, AllocError>
    requires { HoldsSome out.old.types here.old.declared }
    ensures { IfOk result (λ r. LowersBody out.old out.new here.old here.new structs.now free (stmt_of body.now) k r) }
{
    let first = here.bases.len();
    let mut block = Block { next: first, free };
    let targets = Targets {
        broke: 0,
        continued: 0,
    };
    let behind = statement(out, structs, here, &mut block, body, targets, k)?;
    returned(out)?;
    Ok(next(behind))
}

// The parameters of a function are forgotten.
fn leave_parameters(here: &mut Here<'_>, first: usize, names: usize) -> Result<(), AllocError>
    requires { names ≤ length here.old.slots.outer }
    ensures { (h : rust.Here) → IsWithin h here.old → first ≡ length h.bases.items → names ≡ length h.slots.outer → OnOk result (AreForgotten h here.old here.new) }
{
    here.bases.truncate(first);
    here.slots.leave(names)?;
    Ok(())
}

/// Code of a function of a name and a signature, which begins in a block, and the block behind it. Its literals are those
/// that come next.
pub fn function<'t>(
    out: &mut Output<'_>,
    structs: &StructKinds,
    here: &mut Here<'t>,
    name: &'t [u8],
    f: &Signature<'t>,
    parameters: &'t [Decl],
    body: &'t Stmt,
    k: u32,
) -> Result<u32, AllocError>
    requires { HoldsWith out.old.types here.old.declared f.now }
    ensures { IfOk result (λ r. LowersFunction out.old out.new here.old here.new structs.now name.now f.now (decls_of parameters.now) (stmt_of body.now) k r) }
{
    let declared = enter_body(&out.types, &mut here.declared, name, f)?;
    let first = here.bases.len();
    let entered = enter_parameters(here, parameters)?;
    let behind = body_code(out, structs, here, body, entered.free, k)?;
    leave_parameters(here, first, entered.names)?;
    leave_body(&mut here.declared, declared)?;
    Ok(behind)
}
