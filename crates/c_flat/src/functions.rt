// Code of functions.

ghost use Rattle.std.specs.Prelude.{◌≡◌, ℕ, List, Option, length, IfOk, OnOk};
ghost use Rattle.c_syntax.specs.View.{decls_of, stmt_of};
ghost use Rattle.c_types.specs.Scope.{Scope};
ghost use Rattle.c_types.specs.Units as plain;
ghost use Rattle.c_types.specs.Units.{body_scope};
ghost use Rattle.c_types.specs.Room.{charge_of};
ghost use Rattle.c_types.specs.Table.{known};
ghost use Rattle.c_types.specs.Known.{Grows};
ghost use Rattle.c_declared.specs.Held.{Holds};
ghost use Rattle.c_signatures.specs.Blocks.{IsSame};
ghost use Rattle.c_signatures.specs.Signatures.{IsSignature};
ghost use Rattle.c_census.specs.Sums.{HoldsWith};
ghost use Rattle.c_emitted.specs.Emits.{AreFiles};
ghost use Rattle.c_cells.specs.Structs.{AreStructKinds};
ghost use Rattle.c_fitting.specs.Whole.{DefinitionIsFit};
ghost use Rattle.c_flat.specs.Defined.{defined, Defines, CompilesBody};

use crate::statements::statement;
use c_blocks::Block;
use c_cells::StructKinds;
use c_census::charge;
use c_emitted::{Emitter, number_of};
use c_here::Here;
use c_linked::{Compiled, begin_function, end_function, entry, parameter_slots};
use c_signatures::{Signature, enter_body, leave_body};
use c_syntax::tree::{Decls, Stmt};
use c_types::Types;
use std::alloc::AllocError;
use std::mem;

// Code of a function's body, in the scope of its parameters, which have so many slots.
fn body_code<'t>(
    types: &mut Types<'_>,
    kinds: &StructKinds,
    out: &mut Emitter<'t>,
    here: &mut Here<'t>,
    name: &'t [u8],
    f: &Signature<'t>,
    count: u32,
    body: &'t Stmt,
) -> Result<(), AllocError>
    requires { HoldsWith types.old here.old.declared f.now }
    ensures code { OnOk result (CompilesBody types.old here.old f.now kinds.now out.old out.new name.now count (stmt_of body.now)) }
    ensures same { OnOk result (IsSame here.old.declared here.new.declared) }
    ensures grows { OnOk result (Grows (known types.old) (known types.new)) }
    ensures tags { OnOk result (types.new.tags ≡ types.old.tags) }
{
    let mark = enter_body(types, &mut here.declared, name, f)?;
    let mut block = Block::begin(out.alloc, count, 0)?;
    statement(types, kinds, out, here, &mut block, body)?;
    end_function(out)?;
    leave_body(&mut here.declared, mark)?;
    Ok(())
}

/// Code of a function of a name and a signature, and its entry.
pub fn define<'t>(
    types: &mut Types<'_>,
    kinds: &StructKinds,
    out: &mut Emitter<'t>,
    here: &mut Here<'t>,
    name: &'t [u8],
    f: &Signature<'t>,
    parameters: &'t Decls,
    body: &'t Stmt,
) -> Result<Compiled, AllocError>
    requires { HoldsWith types.old here.old.declared f.now }
    ensures defines { (s : Scope) (g : plain.Signature) (names : List (List ℕ × Option ℕ)) → Holds types.old here.old.declared s → IsSignature types.old s f.now g → AreFiles out.old names → AreStructKinds types.old kinds.now s.tags
        → DefinitionIsFit (defined s name.now (decls_of parameters.now.items.items) (stmt_of body.now) g)
        → IfOk result (λ c. Defines out.old out.new names (defined s name.now (decls_of parameters.now.items.items) (stmt_of body.now) g) (charge_of (body_scope s name.now g) (decls_of parameters.now.items.items) (stmt_of body.now)) c) }
    ensures same { OnOk result (IsSame here.old.declared here.new.declared) }
    ensures grows { OnOk result (Grows (known types.old) (known types.new)) }
    ensures tags { OnOk result (types.new.tags ≡ types.old.tags) }
{
    let items = parameters.items.as_slice();
    let count = number_of(items.len())?;
    let charge = charge(types, &mut here.declared, name, f, items.len(), body)?;
    let at = out.code.count();
    let function = begin_function(out, name)?;
    let slots = parameter_slots(out.alloc, items)?;
    let _before = mem::replace(&mut here.slots, slots);
    body_code(types, kinds, out, here, name, f, count, body)?;
    Ok(Compiled {
        function,
        entry: entry(types, at, count, f.result, charge),
    })
}
