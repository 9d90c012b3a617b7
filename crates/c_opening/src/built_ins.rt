// The functions that are always known.

ghost use Rattle.std.specs.Prelude.{◌≡◌, [], ◌∷◌, IfOk, OnOk};
ghost use Rattle.c_types.specs.Types as ctype;
ghost use Rattle.c_types.specs.Scope as scope;
ghost use Rattle.c_types.specs.Scope.{built_in, built_ins};
ghost use Rattle.c_types.specs.Table.{known, HasType, IsType};
ghost use Rattle.c_types.specs.Known.{Grows};
ghost use Rattle.c_operands.specs.Arguments.{HasList};
ghost use Rattle.c_operands.specs.Scoped.{AreNames};
ghost use Rattle.c_opening.specs.BuiltIns.{result_of, parameters_of};

use c_scopes::{Entity, Names};
use c_types::{Shape, Types};
use std::alloc::AllocError;

/// What a function that is always known gives.
#[derive(Clone, Copy)]
pub enum Gives {
    Nothing,
    Number,
}

/// What it takes.
#[derive(Clone, Copy)]
pub enum Takes {
    Nothing,
    Number,
    Text,
}

// The number of a result's type.
fn result_type(types: &mut Types<'_>, gives: Gives) -> Result<usize, AllocError>
    ensures number { IfOk result (λ n. HasType types.new n (result_of gives)) }
    ensures grows { OnOk result (Grows (known types.old) (known types.new)) }
    ensures tags { OnOk result (types.new.tags ≡ types.old.tags) }
{
    match gives {
        Gives::Nothing => types.number(Shape::Void),
        Gives::Number => types.number(Shape::Int),
    }
}

// The number of the list of one parameter.
fn one_parameter(types: &mut Types<'_>, ty: usize) -> Result<usize, AllocError>
    requires { IsType types.old ty }
    ensures list { (t : ctype.CType) → HasType types.old ty t → IfOk result (λ n. HasList types.new n (ctype.MoreType t ctype.NoType)) }
    ensures grows { OnOk result (Grows (known types.old) (known types.new)) }
    ensures tags { OnOk result (types.new.tags ≡ types.old.tags) }
{
    let none = types.number(Shape::NoType)?;
    types.number(Shape::MoreType(ty, none))
}

// The number of the list of parameters' types.
fn parameter_list(types: &mut Types<'_>, takes: Takes) -> Result<usize, AllocError>
    ensures list { IfOk result (λ n. HasList types.new n (ctype.types (parameters_of takes))) }
    ensures grows { OnOk result (Grows (known types.old) (known types.new)) }
    ensures tags { OnOk result (types.new.tags ≡ types.old.tags) }
{
    match takes {
        Takes::Nothing => types.number(Shape::NoType),
        Takes::Number => {
            let number = types.number(Shape::Int)?;
            one_parameter(types, number)
        }
        Takes::Text => {
            let character = types.number(Shape::Char)?;
            let text = types.number(Shape::Pointer(character))?;
            one_parameter(types, text)
        }
    }
}

// A function that is always known is declared.
fn declare_built_in<'t>(
    types: &mut Types<'_>,
    names: &mut Names<'t>,
    name: &'t [u8],
    gives: Gives,
    takes: Takes,
) -> Result<(), AllocError>
    ensures names { (others : scope.Names) → AreNames types.old names.old.block others → OnOk result (AreNames types.new names.new.block ((name.now, built_in (result_of gives) (parameters_of takes)) ∷ others)) }
    ensures outer { OnOk result (names.new.outer ≡ names.old.outer) }
    ensures grows { OnOk result (Grows (known types.old) (known types.new)) }
    ensures tags { OnOk result (types.new.tags ≡ types.old.tags) }
{
    let result = result_type(types, gives)?;
    let list = parameter_list(types, takes)?;
    let function = types.number(Shape::Function(result, list))?;
    names.declare(name, Entity::BuiltIn(function))
}

/// The functions that are always known are declared.
pub fn declare_built_ins<'t>(types: &mut Types<'_>, names: &mut Names<'t>) -> Result<(), AllocError>
    requires { names.old.block ≡ [] }
    ensures names { OnOk result (AreNames types.new names.new.block built_ins) }
    ensures outer { OnOk result (names.new.outer ≡ names.old.outer) }
    ensures tags { OnOk result (types.new.tags ≡ types.old.tags) }
{
    declare_built_in(types, names, b"exit", Gives::Nothing, Takes::Number)?;
    names.declare(b"printf", Entity::Printf)?;
    declare_built_in(types, names, b"puts", Gives::Number, Takes::Text)?;
    declare_built_in(types, names, b"putchar", Gives::Number, Takes::Number)?;
    declare_built_in(
        types,
        names,
        b"__builtin_getc",
        Gives::Number,
        Takes::Nothing,
    )?;
    declare_built_in(types, names, b"getchar", Gives::Number, Takes::Nothing)
}
