// Sizes of types.

ghost use Rattle.std.specs.Prelude.{◌≡◌, IfOk, OnOk};
ghost use Rattle.c_types.specs.Types.{CType, Tags};
ghost use Rattle.c_types.specs.Operands as plain;
ghost use Rattle.c_types.specs.Table.{known, HasType, IsType};
ghost use Rattle.c_types.specs.Known.{Grows};
ghost use Rattle.c_layouts.specs.Layouts.{AreLayouts};
ghost use Rattle.c_operands.specs.Seen.{IsOperand, IsJudged};

use crate::given::either;
use c_layouts::{Layout, is_object_type, words};
use c_operands::{Judged, Operand, Sort, class_of, one_rule};
use c_types::{Constant, Shape, TypeFault, Types};
use std::alloc::AllocError;

/// `sizeof`: the words of a type that an object can have.
pub fn size(
    types: &mut Types<'_>,
    layouts: &[Layout<'_>],
    at: u32,
    ty: usize,
) -> Result<Judged<Operand>, AllocError>
    requires { IsType types.old ty }
    ensures judged { (t : CType) (tags : Tags) → HasType types.old ty t → AreLayouts types.old layouts.now tags → IfOk result (λ j. IsJudged (IsOperand types.new) j (plain.size_operand tags at t)) }
    ensures grows { OnOk result (Grows (known types.old) (known types.new)) }
    ensures tags { OnOk result (types.new.tags ≡ types.old.tags) }
{
    let object = is_object_type(types, layouts, ty);
    let null = class_of(types, ty).is_null();
    let kept = either(object, null);
    let count = words(types, layouts, ty).low();
    let unsigned = types.number(Shape::Unsigned)?;
    Ok(one_rule(
        kept,
        TypeFault::Mismatch(at),
        Operand {
            at,
            ty: unsigned,
            sort: Sort::Other,
            constant: Constant::Value(count),
        },
    ))
}
