// Declarations of objects in blocks.

ghost use Rattle.std.specs.Prelude.{IfOk};
ghost use Rattle.c_syntax.specs.Plain as tree;
ghost use Rattle.c_syntax.specs.View.{decl_of};
ghost use Rattle.c_declared.specs.Held.{HoldsSome};
ghost use Rattle.c_lower_statements.specs.declared.targets.Targets as aim;
ghost use Rattle.c_lower_statements.specs.Lowered.{Lowers};

use c_addressing::{Here, Output};
use c_cells::StructKinds;
use c_lower_blocks::{Block, declare_local};
use c_lower_values::first_value;
use c_syntax::tree::Decl;
use std::alloc::AllocError;

/// Code of an object's declaration: of its first value, in which it is known.
pub fn local<'t>(
    out: &mut Output<'_>,
    structs: &StructKinds,
    here: &mut Here<'t>,
    block: &mut Block,
    d: &'t Decl,
    k: u32,
) -> Result<u32, AllocError>
    requires { HoldsSome out.old.types here.old.declared }
    ensures { (to : aim.Targets) → IfOk result (λ r. Lowers out.old out.new here.old here.new structs.now block.old block.new (tree.Local (decl_of d.now)) to k r) }
{
    let object = declare_local(out, here, block, d)?;
    match &d.first {
        Some(value) => {
            first_value(
                out, structs, here, object.ty, object.at, value, k, block.free,
            )
        }
        None => Ok(k),
    }
}
