// Declarations of objects in blocks.

ghost use Rattle.std.specs.Prelude.{OnOk};
ghost use Rattle.c_syntax.specs.Plain as tree;
ghost use Rattle.c_syntax.specs.View.{decl_of};
ghost use Rattle.c_declared.specs.Held.{HoldsSome};
ghost use Rattle.c_flat.specs.Compiled.{Compiles};

use crate::values::first_value;
use c_blocks::{Block, declare_local};
use c_cells::StructKinds;
use c_emitted::Emitter;
use c_here::Here;
use c_syntax::tree::Decl;
use c_types::Types;
use std::alloc::AllocError;

/// Code of an object's declaration: of its first value, in which it is known.
pub fn local<'t>(
    types: &mut Types<'_>,
    kinds: &StructKinds,
    out: &mut Emitter<'t>,
    here: &mut Here<'t>,
    block: &mut Block,
    d: &'t Decl,
) -> Result<(), AllocError>
    requires { HoldsSome types.old here.old.declared }
    ensures { OnOk result (Compiles types.old types.new here.old here.new kinds.now out.old out.new block.old block.new (tree.Local (decl_of d.now))) }
{
    let declared = declare_local(types, here, block, d)?;
    match declared {
        Some(object) => first_value(types, kinds, out, here, object.ty, object.slot, &d.first),
        None => Ok(()),
    }
}
