// Operators on two sides.

ghost use Rattle.std.specs.Prelude.{◌≡◌, ◌<◌, length, IfOk, OnOk};
ghost use Rattle.c_types.specs.Types.{CType, Tags};
ghost use Rattle.c_types.specs.Operands as plain;
ghost use Rattle.c_types.specs.Table.{Table, known, HasType, IsType};
ghost use Rattle.c_types.specs.Known.{Grows};
ghost use Rattle.c_layouts.specs.Layouts.{AreLayouts};
ghost use Rattle.c_operands.specs.Classes.{class_of};
ghost use Rattle.c_operands.specs.Seen.{IsOperand, IsValue, IsJudged};
ghost use Rattle.c_forms.specs.Given.{GivenIs, IsGiven, HaveLayouts};

use crate::given::{Given, both, common, either, int, type_number, when};
use crate::sums::{difference_type, sum_type};
use c_layouts::Layout;
use c_operands::{
    Class, Judged, Operand, Sort, Value, can_equal, can_order, is_condition, value_of,
};
use c_syntax::tree::BinOp;
use c_types::{TypeFault, Types, binary_constant};
use std::alloc::AllocError;

// The type of an operator on two numbers.
fn number_type(a: Class, b: Class, given: Given) -> Option<Given>
    ensures { (table : Table) (t u r : CType) → a ≡ class_of t → b ≡ class_of u → GivenIs table given r → IsGiven table result (plain.number_type t u r) }
{
    when(both(a.is_number(), b.is_number()), given)
}

/// The type that an operator on two sides gives, if its operands keep its rule.
pub fn binary_type(
    types: &Types<'_>,
    layouts: &[Layout<'_>],
    op: BinOp,
    a: Value,
    b: Value,
) -> Option<Given>
    requires left { a.ty < length (known types.now) }
    requires right { b.ty < length (known types.now) }
    ensures { (x y : plain.Operand) (tags : Tags) → IsValue types.now a x → IsValue types.now b y → AreLayouts types.now layouts.now tags → IsGiven types.now result (plain.binary_type tags op x y) }
{
    match op {
        BinOp::Or | BinOp::And => when(both(is_condition(types, a), is_condition(types, b)), int()),
        BinOp::Eq | BinOp::Ne => when(can_equal(types, a, b), int()),
        BinOp::Lt | BinOp::Gt | BinOp::Le | BinOp::Ge => when(can_order(types, a, b), int()),
        BinOp::Shl | BinOp::Shr => number_type(a.class, b.class, Given::Number(a.ty)),
        BinOp::Add => sum_type(types, layouts, a, b),
        BinOp::Sub => difference_type(types, layouts, a, b),
        _ => number_type(a.class, b.class, common(a.class, b.class)),
    }
}

/// An operator on two sides.
pub fn binary(
    types: &mut Types<'_>,
    layouts: &[Layout<'_>],
    at: u32,
    op: BinOp,
    a: Operand,
    b: Operand,
) -> Result<Judged<Operand>, AllocError>
    requires left { IsType types.old a.ty }
    requires right { IsType types.old b.ty }
    requires layouts { HaveLayouts types.old layouts.now }
    ensures judged { (x y : plain.Operand) (tags : Tags) → IsOperand types.old a x → IsOperand types.old b y → AreLayouts types.old layouts.now tags → IfOk result (λ j. IsJudged (IsOperand types.new) j (plain.binary_operand tags at op x y)) }
    ensures grows { OnOk result (Grows (known types.old) (known types.new)) }
    ensures tags { OnOk result (types.new.tags ≡ types.old.tags) }
{
    let left = value_of(types, a)?;
    let right = value_of(types, b)?;
    let unsigned = left.class.is_unsigned();
    let either = either(unsigned, right.class.is_unsigned());
    let constant = binary_constant(at, op, unsigned, either, a.constant, b.constant);
    match binary_type(types, layouts, op, left, right) {
        None => Ok(Err(TypeFault::Mismatch(at))),
        Some(given) => {
            let ty = type_number(types, given)?;
            Ok(Ok(Operand {
                at,
                ty,
                sort: Sort::Other,
                constant,
            }))
        }
    }
}
