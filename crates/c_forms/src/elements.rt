// Elements by their index.

ghost use Rattle.std.specs.Prelude.{◌≡◌, IfOk, OnOk};
ghost use Rattle.c_types.specs.Types.{Tags};
ghost use Rattle.c_types.specs.Operands as plain;
ghost use Rattle.c_types.specs.Table.{known, IsType};
ghost use Rattle.c_types.specs.Known.{Grows};
ghost use Rattle.c_layouts.specs.Layouts.{AreLayouts};
ghost use Rattle.c_operands.specs.Seen.{IsOperand, IsJudged};
ghost use Rattle.c_forms.specs.Given.{HaveLayouts};

use crate::given::type_number;
use crate::places::pointed;
use crate::sums::sum_type;
use c_layouts::Layout;
use c_operands::{Judged, Operand, value_of};
use c_types::{TypeFault, Types};
use std::alloc::AllocError;

/// An element: what the sum of a pointer and a number points to.
pub fn index(
    types: &mut Types<'_>,
    layouts: &[Layout<'_>],
    at: u32,
    a: Operand,
    b: Operand,
) -> Result<Judged<Operand>, AllocError>
    requires left { IsType types.old a.ty }
    requires right { IsType types.old b.ty }
    requires layouts { HaveLayouts types.old layouts.now }
    ensures judged { (x y : plain.Operand) (tags : Tags) → IsOperand types.old a x → IsOperand types.old b y → AreLayouts types.old layouts.now tags → IfOk result (λ j. IsJudged (IsOperand types.new) j (plain.index_operand tags at x y)) }
    ensures grows { OnOk result (Grows (known types.old) (known types.new)) }
    ensures tags { OnOk result (types.new.tags ≡ types.old.tags) }
{
    let left = value_of(types, a)?;
    let right = value_of(types, b)?;
    match sum_type(types, layouts, left, right) {
        None => Ok(Err(TypeFault::Mismatch(at))),
        Some(given) => {
            let ty = type_number(types, given)?;
            Ok(pointed(types, layouts, at, ty))
        }
    }
}
