// Kinds of types, and what their places are worth.

ghost use Rattle.std.specs.Prelude.{◌≡◌, ◌<◌, length};
ghost use Rattle.c_types.specs.Types.{CType};
ghost use Rattle.c_types.specs.Table.{known, HasType};
ghost use Rattle.c_resolved.specs.Resolved.{kind_of, fetch_of, follow_of};
ghost use Rattle.c_kinds.specs.Sides.{kind_by, fetch_by};

use c_operands::{Class, class_of, pointee};
use c_plain::Fetch;
use c_store::Kind;
use c_types::Types;

// The kind of the values of a class.
pub fn kind_by(class: Class) -> Kind
    ensures { result ≡ kind_by class }
{
    match class {
        Class::FunctionPointer => Kind::FunctionPointer,
        Class::VoidPointer | Class::ObjectPointer | Class::Null => Kind::ObjectPointer,
        _ => Kind::Number,
    }
}

/// The kind of the values of a type.
pub fn kind(types: &Types<'_>, ty: usize) -> Kind
    requires { ty < length (known types.now) }
    ensures { (t : CType) → HasType types.now ty t → result ≡ kind_of t }
{
    kind_by(class_of(types, ty))
}

// What a place of a class is worth.
fn fetch_by(class: Class) -> Fetch
    ensures { result ≡ fetch_by class }
{
    match class {
        Class::Array => Fetch::Place,
        Class::Struct => Fetch::Nothing,
        other => Fetch::Cell(kind_by(other)),
    }
}

/// What a place of a type is worth.
pub fn fetch(types: &Types<'_>, ty: usize) -> Fetch
    requires { ty < length (known types.now) }
    ensures { (t : CType) → HasType types.now ty t → result ≡ fetch_of t }
{
    fetch_by(class_of(types, ty))
}

/// What a pointer of a type points to.
pub fn follow(types: &Types<'_>, ty: usize) -> Fetch
    requires { ty < length (known types.now) }
    ensures { (t : CType) → HasType types.now ty t → result ≡ follow_of t }
{
    match pointee(types.shape(ty)) {
        Some(to) => match class_of(types, to) {
            Class::Function => Fetch::Place,
            _ => fetch(types, to),
        },
        None => Fetch::Refused,
    }
}
