// What converts to what.

ghost use Rattle.std.specs.Prelude.{◌≡◌};
ghost use Rattle.c_types.specs.Types.{CType};
ghost use Rattle.c_types.specs.Operands as plain;
ghost use Rattle.c_types.specs.Operands.{value_type};
ghost use Rattle.c_types.specs.Table.{HasType};
ghost use Rattle.c_operands.specs.Classes.{class_of, classes_convert, classes_cast, classes_equal, classes_order};
ghost use Rattle.c_operands.specs.Seen.{IsValue};

use crate::class::Class;
use crate::operand::Value;
use c_types::{Types, equal_types_are_one};

// Whether a value of a class converts to a class: whether the value is a null constant, and the types are equal.
fn classes_convert(from: Class, null: bool, to: Class, same: bool) -> bool
    ensures { result ≡ classes_convert from null to same }
{
    (from.is_number() && to.is_number())
        || (to.is_pointer() && (same || null))
        || (from == Class::VoidPointer && to.is_object_pointer())
        || (from.is_object_pointer() && to == Class::VoidPointer)
}

/// Whether a value converts to a type without a cast.
pub fn converts(types: &Types<'_>, a: Value, ty: usize, class: Class) -> bool
    ensures { (x : plain.Operand) (t : CType) → IsValue types.now a x → HasType types.now ty t → class ≡ class_of t → result ≡ plain.converts x t }
{
    classes_convert(a.class, a.null, class, types.is_same(a.ty, ty))
}

// Whether a cast goes from one class to another, whose types may be equal.
fn classes_cast(from: Class, to: Class, same: bool) -> bool
    ensures { result ≡ classes_cast from to same }
{
    to == Class::Void
        || (from.is_number() && to.is_number())
        || (from.is_object_pointer() && to.is_object_pointer())
        || (from == Class::FunctionPointer && same)
}

/// Whether a cast goes from one type to another.
pub fn can_cast(
    types: &Types<'_>,
    from: usize,
    from_class: Class,
    to: usize,
    to_class: Class,
) -> bool
    ensures { (t u : CType) → HasType types.now from t → from_class ≡ class_of t → HasType types.now to u → to_class ≡ class_of u → result ≡ plain.can_cast t u }
{
    classes_cast(from_class, to_class, types.is_same(from, to))
}

/// Whether a value may be a condition: a number or a pointer.
pub fn is_condition(types: &Types<'_>, a: Value) -> bool
    ensures { (x : plain.Operand) → IsValue types.now a x → result ≡ plain.is_condition x }
{
    let _types = types;
    a.class.is_scalar() || a.class == Class::Null
}

// Whether values of two classes may be compared for equality.
fn classes_equal(a: Class, a_null: bool, b: Class, b_null: bool, same: bool) -> bool
    ensures { result ≡ classes_equal a a_null b b_null same }
{
    (a.is_number() && b.is_number())
        || (a.is_pointer() && classes_convert(b, b_null, a, same))
        || (b.is_pointer() && classes_convert(a, a_null, b, same))
        || (a_null && b_null)
}

/// Whether two values may be compared for equality.
pub fn can_equal(types: &Types<'_>, a: Value, b: Value) -> bool
    ensures { (x y : plain.Operand) → IsValue types.now a x → IsValue types.now b y → result ≡ plain.can_equal x y }
{
    equal_types_are_one();
    classes_equal(a.class, a.null, b.class, b.null, types.is_same(a.ty, b.ty))
}

// Whether values of two classes have an order.
fn classes_order(a: Class, b: Class, same: bool) -> bool
    ensures { result ≡ classes_order a b same }
{
    (a.is_number() && b.is_number()) || (a.is_object_pointer() && same)
}

/// Whether two values have an order: numbers, or object pointers of equal types.
pub fn can_order(types: &Types<'_>, a: Value, b: Value) -> bool
    ensures { (x y : plain.Operand) → IsValue types.now a x → IsValue types.now b y → result ≡ plain.can_order (value_type x) (value_type y) }
{
    classes_order(a.class, b.class, types.is_same(a.ty, b.ty))
}
