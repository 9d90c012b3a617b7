// Steps, and assignments by an operator.

ghost use Rattle.std.specs.Prelude.{◌≡◌, ◌<◌, length, Option, Some, IfOk, OnOk, is_some};
ghost use Rattle.c_types.specs.Types.{CType, Tags, Int};
ghost use Rattle.c_types.specs.Operands as plain;
ghost use Rattle.c_types.specs.Operands.{value_type};
ghost use Rattle.c_types.specs.Table.{known, HasType, IsType};
ghost use Rattle.c_types.specs.Known.{Grows};
ghost use Rattle.c_layouts.specs.Layouts.{AreLayouts};
ghost use Rattle.c_operands.specs.Seen.{IsOperand, IsValue, IsJudged};
ghost use Rattle.c_forms.specs.Given.{HaveLayouts, IsGiven};

use crate::given::{Given, either, type_number};
use crate::operation::binary_type;
use crate::sums::is_element_pointer;
use c_layouts::Layout;
use c_operands::{
    Judged, Operand, Value, class_of, converts, is_word_place, two_rules, value_at, value_of,
};
use c_syntax::tree::BinOp;
use c_types::{TypeFault, Types};
use std::alloc::AllocError;

// Whether a value has a sum with a number.
fn can_step(types: &Types<'_>, layouts: &[Layout<'_>], a: Value) -> bool
    requires { a.ty < length (known types.now) }
    ensures { (x : plain.Operand) (tags : Tags) → IsValue types.now a x → AreLayouts types.now layouts.now tags → result ≡ is_some (plain.sum_type tags (value_type x) Int) }
{
    let number = a.class.is_number();
    let pointer = is_element_pointer(types, layouts, a.ty);
    either(number, pointer)
}

/// `++` and `--`: a step of a place of one word, which has a sum with a number.
pub fn step(
    types: &mut Types<'_>,
    layouts: &[Layout<'_>],
    at: u32,
    a: Operand,
) -> Result<Judged<Operand>, AllocError>
    requires { IsType types.old a.ty }
    ensures judged { (x : plain.Operand) (tags : Tags) → IsOperand types.old a x → AreLayouts types.old layouts.now tags → IfOk result (λ j. IsJudged (IsOperand types.new) j (plain.step_operand tags at x)) }
    ensures grows { OnOk result (Grows (known types.old) (known types.new)) }
    ensures tags { OnOk result (types.new.tags ≡ types.old.tags) }
{
    let value = value_of(types, a)?;
    let class = class_of(types, a.ty);
    let kept = can_step(types, layouts, value);
    Ok(two_rules(
        is_word_place(a.sort, class),
        TypeFault::NotLvalue(a.at),
        kept,
        TypeFault::Mismatch(at),
        value_at(at, value.ty),
    ))
}

// Whether a value of the type that an operator gives converts to a type.
fn result_converts(
    types: &mut Types<'_>,
    at: u32,
    given: Option<Given>,
    ty: usize,
) -> Result<bool, AllocError>
    requires given { (o : Option CType) × IsGiven types.old given o }
    requires ty { IsType types.old ty }
    ensures converts { (o : Option CType) (t : CType) → IsGiven types.old given o → HasType types.old ty t → IfOk result (λ b. b ≡ plain.result_converts at o t) }
    ensures grows { OnOk result (Grows (known types.old) (known types.new)) }
    ensures tags { OnOk result (types.new.tags ≡ types.old.tags) }
{
    match given {
        None => Ok(false),
        Some(given) => {
            let number = type_number(types, given)?;
            let value = value_of(types, value_at(at, number))?;
            let class = class_of(types, ty);
            Ok(converts(types, value, ty, class))
        }
    }
}

/// An assignment by an operator to a place of one word, where what the operator gives converts to its type.
pub fn update(
    types: &mut Types<'_>,
    layouts: &[Layout<'_>],
    at: u32,
    op: BinOp,
    a: Operand,
    b: Operand,
) -> Result<Judged<Operand>, AllocError>
    requires left { IsType types.old a.ty }
    requires right { IsType types.old b.ty }
    requires layouts { HaveLayouts types.old layouts.now }
    ensures judged { (x y : plain.Operand) (tags : Tags) → IsOperand types.old a x → IsOperand types.old b y → AreLayouts types.old layouts.now tags → IfOk result (λ j. IsJudged (IsOperand types.new) j (plain.assign_operand tags at (Some op) x y)) }
    ensures grows { OnOk result (Grows (known types.old) (known types.new)) }
    ensures tags { OnOk result (types.new.tags ≡ types.old.tags) }
{
    let left = value_of(types, a)?;
    let right = value_of(types, b)?;
    let given = binary_type(types, layouts, op, left, right);
    let kept = result_converts(types, at, given, a.ty)?;
    let class = class_of(types, a.ty);
    Ok(two_rules(
        is_word_place(a.sort, class),
        TypeFault::NotLvalue(a.at),
        kept,
        TypeFault::Mismatch(at),
        value_at(at, a.ty),
    ))
}
