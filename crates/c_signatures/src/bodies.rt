// The scope of a function's body.

ghost use Rattle.std.specs.Prelude.{◌≡◌, ◌≤◌, length, IfOk, OnOk};
ghost use Rattle.c_types.specs.Scope.{Scope};
ghost use Rattle.c_types.specs.Units as plain;
ghost use Rattle.c_declared.specs.Held.{Holds};
ghost use Rattle.c_signatures.specs.Blocks.{IsInBody, IsSame};
ghost use Rattle.c_signatures.specs.Signatures.{IsSignature};

use crate::blocks::begin_block;
use crate::parameters::declare_again;
use crate::signature::Signature;
use c_declared::{entity_behind, found_here};
use c_operands::Declarations;
use c_types::Types;
use std::alloc::AllocError;

/// The scope of a function's body begins: its name, and in a block of its own the parameters. The answer ends it again.
pub fn enter_body<'t>(
    types: &Types<'_>,
    declared: &mut Declarations<'t>,
    name: &'t [u8],
    f: &Signature<'t>,
) -> Result<usize, AllocError>
    ensures holds { (s : Scope) (g : plain.Signature) → Holds types.now declared.old s → IsSignature types.now s f.now g → OnOk result (Holds types.now declared.new (plain.body_scope s name.now g)) }
    ensures inside { OnOk result (IsInBody declared.old declared.new) }
    ensures mark { IfOk result (λ mark. mark ≡ length declared.old.names.outer) }
{
    let found = found_here(types, declared, name);
    let entity = entity_behind(found, f.ty, true);
    declared.names.declare(name, entity)?;
    let mark = begin_block(declared);
    declare_again(types, declared, f.parameters.as_slice())?;
    Ok(mark)
}

/// The scope of a body ends, which began with this answer of `enter_body`: what is declared is what was before it.
pub fn leave_body(declared: &mut Declarations<'_>, mark: usize) -> Result<(), AllocError>
    requires { mark ≤ length declared.old.names.outer }
    ensures { (d : Declarations) → IsInBody d declared.old → mark ≡ length d.names.outer → OnOk result (IsSame d declared.new) }
{
    declared.names.leave(mark)?;
    declared.names.withdraw()?;
    Ok(())
}
