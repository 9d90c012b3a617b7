// The kinds of the cells of types.

ghost use Rattle.std.specs.Prelude.{◌≡◌, ◌<◌, ◌++◌, length, map, OnOk};
ghost use Rattle.c_types.specs.Types.{CType, Tags};
ghost use Rattle.c_types.specs.Table.{known, HasType};
ghost use Rattle.c_layouts.specs.Layouts.{array_parts};
ghost use Rattle.c_resolved.specs.Same.{kind_in};
ghost use Rattle.c_eval.specs.Environment.{cell_kinds};
ghost use Rattle.c_cells.specs.Structs.{AreStructKinds};

use crate::structs::StructKinds;
use c_kinds::kind;
use c_layouts::{array_parts, tag_of};
use c_store::Kind;
use c_types::Types;
use std::alloc::AllocError;

/// The kinds of the cells of an object of a type, behind others.
pub fn add_kinds(
    types: &Types<'_>,
    structs: &StructKinds,
    ty: usize,
    kinds: &mut Vec<Kind>,
) -> Result<(), AllocError>
    requires { ty < length (known types.now) }
    ensures { (t : CType) (tags : Tags) → HasType types.now ty t → AreStructKinds types.now structs.now tags → OnOk result (map kind_in kinds.new.items ≡ map kind_in kinds.old.items ++ cell_kinds tags t) }
{
    let shape = types.shape(ty);
    if let Some((of, count)) = array_parts(shape) {
        for _index in 0..count {
            add_kinds(types, structs, of, kinds)?;
        }
        return Ok(());
    }
    match tag_of(shape) {
        Some(tag) => structs.add_row(tag, kinds),
        None => {
            kinds.push(kind(types, ty))?;
            Ok(())
        }
    }
}
