// Sums and differences of numbers and pointers.

ghost use Rattle.std.specs.Prelude.{◌≡◌, ◌<◌, length};
ghost use Rattle.c_types.specs.Types.{CType, Tags};
ghost use Rattle.c_types.specs.Operands as plain;
ghost use Rattle.c_types.specs.Operands.{value_type};
ghost use Rattle.c_types.specs.Table.{known, HasType};
ghost use Rattle.c_layouts.specs.Layouts.{AreLayouts};
ghost use Rattle.c_operands.specs.Classes.{pointee};
ghost use Rattle.c_operands.specs.Seen.{IsValue};
ghost use Rattle.c_forms.specs.Given.{IsGiven};

use crate::given::{Given, both, common, int, or_else, when};
use c_layouts::{Layout, is_object_type};
use c_operands::{Value, pointee};
use c_types::Types;

/// Whether a type is that of a pointer to elements of an object.
pub fn is_element_pointer(types: &Types<'_>, layouts: &[Layout<'_>], ty: usize) -> bool
    requires { ty < length (known types.now) }
    ensures { (t : CType) (tags : Tags) → HasType types.now ty t → AreLayouts types.now layouts.now tags → result ≡ plain.is_element_pointer tags t }
{
    match pointee(types.shape(ty)) {
        Some(to) => is_object_type(types, layouts, to),
        None => false,
    }
}

/// The type of a sum: one of numbers, or of a pointer and a number in either order.
pub fn sum_type(types: &Types<'_>, layouts: &[Layout<'_>], a: Value, b: Value) -> Option<Given>
    requires left { a.ty < length (known types.now) }
    requires right { b.ty < length (known types.now) }
    ensures { (x y : plain.Operand) (tags : Tags) → IsValue types.now a x → IsValue types.now b y → AreLayouts types.now layouts.now tags → IsGiven types.now result (plain.sum_type tags (value_type x) (value_type y)) }
{
    let left = is_element_pointer(types, layouts, a.ty);
    let right = is_element_pointer(types, layouts, b.ty);
    let first = a.class.is_number();
    let second = b.class.is_number();
    let numbers = when(both(first, second), common(a.class, b.class));
    let behind = when(both(left, second), Given::Number(a.ty));
    let before = when(both(first, right), Given::Number(b.ty));
    or_else(numbers, or_else(behind, before))
}

/// The type of a difference: one of numbers, of a pointer and a number, or of pointers of equal types, which is
/// an int.
pub fn difference_type(
    types: &Types<'_>,
    layouts: &[Layout<'_>],
    a: Value,
    b: Value,
) -> Option<Given>
    requires left { a.ty < length (known types.now) }
    ensures { (x y : plain.Operand) (tags : Tags) → IsValue types.now a x → IsValue types.now b y → AreLayouts types.now layouts.now tags → IsGiven types.now result (plain.difference_type tags (value_type x) (value_type y)) }
{
    let left = is_element_pointer(types, layouts, a.ty);
    let same = types.is_same(a.ty, b.ty);
    let second = b.class.is_number();
    let numbers = when(both(a.class.is_number(), second), common(a.class, b.class));
    let before = when(both(left, second), Given::Number(a.ty));
    let between = when(both(left, same), int());
    or_else(numbers, or_else(before, between))
}
