// The slots of parameters.

ghost use Rattle.std.specs.Prelude.{map, IfOk};
ghost use Rattle.c_syntax.specs.View.{decls_of};
ghost use Rattle.c_code.specs.Machine.{parameter_slots};
ghost use Rattle.c_pieces.specs.Places.{AreInSlots};

use c_scopes::{Entity, Names};
use c_syntax::tree::Decl;
use std::alloc::{AllocError, Global};

/// The slots of a function's names where its body begins: those of its parameters, from 0 on in their order.
pub fn parameter_slots<'t>(alloc: Global, parameters: &'t [Decl]) -> Result<Names<'t>, AllocError>
    ensures { IfOk result (λ slots. AreInSlots slots (parameter_slots (map (λ d. d.name) (decls_of parameters.now)) 0)) }
{
    let mut slots = Names::new(alloc);
    for step in 0..parameters.len() {
        let slot = parameters.len() - 1 - step;
        slots.declare(parameters[slot].name.as_bytes(), Entity::Object(slot))?;
    }
    Ok(slots)
}
