// Choices of two.

ghost use Rattle.std.specs.Prelude.{◌≡◌, ◌&&◌, ◌||◌, Option, IfOk, OnOk};
ghost use Rattle.std.specs.Option.{option_map_or};
ghost use Rattle.c_types.specs.Types.{CType, Void, Pointer};
ghost use Rattle.c_types.specs.Operands as plain;
ghost use Rattle.c_types.specs.Table.{Table, known, HasType, IsType};
ghost use Rattle.c_types.specs.Known.{Grows};
ghost use Rattle.c_operands.specs.Classes.{number, void, pointer, void_pointer, object_pointer};
ghost use Rattle.c_operands.specs.Seen.{IsOperand, IsValue, IsJudged};
ghost use Rattle.c_forms.specs.Given.{GivenIs, IsGiven};

use crate::given::{Given, both, common, either, or_else, type_number, when};
use c_operands::{Class, Judged, Operand, Sort, Value, is_condition, two_rules, value_of};
use c_types::{Shape, TypeFault, Types, choice_constant};
use std::alloc::AllocError;

// Whether both are numbers.
fn are_numbers(a: Class, b: Class) -> bool
    ensures { result ≡ (number a && number b) }
{
    a.is_number() && b.is_number()
}

// Whether both are void.
fn are_void(a: Class, b: Class) -> bool
    ensures { result ≡ (void a && void b) }
{
    a == Class::Void && b == Class::Void
}

// Whether a pointer's type is that of both branches, since the other one is equal or a null constant.
fn is_kept(a: Class, other: bool) -> bool
    ensures { result ≡ (pointer a && other) }
{
    a.is_pointer() && other
}

// Whether one is a `void *`, and the other one a pointer to an object.
fn are_general(a: Class, b: Class) -> bool
    ensures { result ≡ ((void_pointer a && object_pointer b) || (object_pointer a && void_pointer b)) }
{
    (a == Class::VoidPointer && b.is_object_pointer())
        || (a.is_object_pointer() && b == Class::VoidPointer)
}

// The type of a choice of two, if they have one. A `void *` has the number `to_void`.
fn choice_type(types: &Types<'_>, a: Value, b: Value, to_void: usize) -> Option<Given>
    ensures { (x y : plain.Operand) → IsValue types.now a x → IsValue types.now b y → HasType types.now to_void (Pointer Void) → IsGiven types.now result (plain.choice_type x y) }
{
    let equal = either(types.is_same(a.ty, b.ty), b.null);
    let numbers = when(are_numbers(a.class, b.class), common(a.class, b.class));
    let nothing = when(are_void(a.class, b.class), Given::Shape(Shape::Void));
    let first = when(is_kept(a.class, equal), Given::Number(a.ty));
    let second = when(is_kept(b.class, a.null), Given::Number(b.ty));
    let general = when(are_general(a.class, b.class), Given::Number(to_void));
    let null = when(both(a.null, b.null), Given::Shape(Shape::Null));
    let from_general = or_else(general, null);
    let from_second = or_else(second, from_general);
    let from_first = or_else(first, from_second);
    let from_nothing = or_else(nothing, from_first);
    or_else(numbers, from_nothing)
}

// A type that is given, or void.
fn given_or_void(given: Option<Given>) -> Given
    ensures { (table : Table) (o : Option CType) → IsGiven table given o → GivenIs table result (option_map_or (λ t. t) o Void) }
{
    given.unwrap_or(Given::Shape(Shape::Void))
}

/// `?:`: a choice of two numbers, of two voids, or of pointers of which one converts to the other's type.
pub fn choice(
    types: &mut Types<'_>,
    at: u32,
    a: Operand,
    b: Operand,
    c: Operand,
) -> Result<Judged<Operand>, AllocError>
    requires test { IsType types.old a.ty }
    requires first { IsType types.old b.ty }
    requires second { IsType types.old c.ty }
    ensures judged { (x y z : plain.Operand) → IsOperand types.old a x → IsOperand types.old b y → IsOperand types.old c z → IfOk result (λ j. IsJudged (IsOperand types.new) j (plain.choice_operand at x y z)) }
    ensures grows { OnOk result (Grows (known types.old) (known types.new)) }
    ensures tags { OnOk result (types.new.tags ≡ types.old.tags) }
{
    let void = types.number(Shape::Void)?;
    let to_void = types.number(Shape::Pointer(void))?;
    let test = value_of(types, a)?;
    let first = value_of(types, b)?;
    let second = value_of(types, c)?;
    let kept = is_condition(types, test);
    let given = choice_type(types, first, second, to_void);
    let ty = type_number(types, given_or_void(given))?;
    let constant = choice_constant(a.constant, b.constant, c.constant);
    Ok(two_rules(
        kept,
        TypeFault::Mismatch(a.at),
        given.is_some(),
        TypeFault::Mismatch(at),
        Operand {
            at,
            ty,
            sort: Sort::Other,
            constant,
        },
    ))
}
