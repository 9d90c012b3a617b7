//! Small parts, of the parts of a production: an `Err` is want of memory.

ghost use Rattle.std.specs.Prelude.{◌≡◌, length, IfOk};
ghost use Rattle.c_grammar.specs.Grammar.{piece_rhs};
ghost use Rattle.c_grammar.specs.Tree.{act};
ghost use Rattle.c_grammar.specs.Values.{meanings_of};
ghost use Rattle.c_grammar.specs.declared.names.Production.TheVariants as is;
ghost use Rattle.c_grammar.specs.declared.names.Piece.TheVariants as piece;
ghost use Rattle.c_held.specs.View.{meaning_of, values_of};
ghost use Rattle.c_held.specs.Shape.{StandAt};

use c_declare::declarations as build;
use c_held::parts::passed;
use c_held::value::{Meaning, Value};
use std::alloc::{AllocError, Global};

/// A name by itself.
pub fn name_part(parts: &mut [Value]) -> Result<Meaning, AllocError>
    requires full { length parts.old ≡ 1 }
    requires stand { StandAt (piece_rhs piece.NamePart) parts.old }
    ensures { IfOk result (λ m. meaning_of m ≡ act (is.PieceP piece.NamePart) (meanings_of (values_of parts.old))) }
{
    let [name] = parts else { unreachable!() };
    Ok(passed(name))
}

/// A further argument.
pub fn next_argument(parts: &mut [Value]) -> Result<Meaning, AllocError>
    requires full { length parts.old ≡ 2 }
    requires stand { StandAt (piece_rhs piece.NextArgument) parts.old }
    ensures { IfOk result (λ m. meaning_of m ≡ act (is.PieceP piece.NextArgument) (meanings_of (values_of parts.old))) }
{
    let [_, argument] = parts else { unreachable!() };
    Ok(passed(argument))
}

/// The second word of a type, as `char` behind `unsigned`.
pub fn second_word(parts: &mut [Value]) -> Result<Meaning, AllocError>
    requires full { length parts.old ≡ 2 }
    requires stand { StandAt (piece_rhs piece.SecondWord) parts.old }
    ensures { IfOk result (λ m. meaning_of m ≡ act (is.PieceP piece.SecondWord) (meanings_of (values_of parts.old))) }
{
    let [word, _] = parts else { unreachable!() };
    Ok(passed(word))
}

/// The first value behind `=`.
pub fn first_value(parts: &mut [Value]) -> Result<Meaning, AllocError>
    requires { length parts.old ≡ 2 }
    ensures { IfOk result (λ m. meaning_of m ≡ act (is.PieceP piece.Initial) (meanings_of (values_of parts.old))) }
{
    let [_, value] = parts else { unreachable!() };
    Ok(build::first_value(value))
}

/// The members of a struct, of one declaration each.
pub fn all_members(alloc: Global, parts: &mut [Value]) -> Result<Meaning, AllocError>
    requires { length parts.old ≡ 3 }
    ensures { IfOk result (λ m. meaning_of m ≡ act (is.PieceP piece.Members) (meanings_of (values_of parts.old))) }
{
    let [_, members, _] = parts else {
        unreachable!()
    };
    build::all_members(alloc, members)
}

/// A further member of a declaration.
pub fn next_member(alloc: Global, parts: &mut [Value]) -> Result<Meaning, AllocError>
    requires { length parts.old ≡ 3 }
    ensures { IfOk result (λ m. meaning_of m ≡ act (is.PieceP piece.NextMember) (meanings_of (values_of parts.old))) }
{
    let [_, stars, name] = parts else {
        unreachable!()
    };
    build::next_member(alloc, stars, name)
}

/// A length that may be left out.
pub fn any_length(parts: &mut [Value]) -> Result<Meaning, AllocError>
    requires { length parts.old ≡ 3 }
    ensures { IfOk result (λ m. meaning_of m ≡ act (is.PieceP piece.AnyLength) (meanings_of (values_of parts.old))) }
{
    let [_, length, _] = parts else {
        unreachable!()
    };
    Ok(build::any_length(length))
}

/// A length.
pub fn full_length(parts: &mut [Value]) -> Result<Meaning, AllocError>
    requires { length parts.old ≡ 3 }
    ensures { IfOk result (λ m. meaning_of m ≡ act (is.PieceP piece.FullLength) (meanings_of (values_of parts.old))) }
{
    let [_, length, _] = parts else {
        unreachable!()
    };
    Ok(build::full_length(length))
}

/// A further parameter.
pub fn next_param(alloc: Global, parts: &mut [Value]) -> Result<Meaning, AllocError>
    requires { length parts.old ≡ 4 }
    ensures { IfOk result (λ m. meaning_of m ≡ act (is.PieceP piece.NextParam) (meanings_of (values_of parts.old))) }
{
    let [_, words, stars, tail] = parts else {
        unreachable!()
    };
    build::next_param(alloc, words, stars, tail)
}

/// The lengths of a parameter without a name.
pub fn param_lengths(alloc: Global, parts: &mut [Value]) -> Result<Meaning, AllocError>
    requires { length parts.old ≡ 4 }
    ensures { IfOk result (λ m. meaning_of m ≡ act (is.PieceP piece.ParamLengths) (meanings_of (values_of parts.old))) }
{
    let [_, length, _, others] = parts else {
        unreachable!()
    };
    build::param_lengths(alloc, length, others)
}

/// A further declared name with its first value.
pub fn next_init(alloc: Global, parts: &mut [Value]) -> Result<Meaning, AllocError>
    requires { length parts.old ≡ 4 }
    ensures { IfOk result (λ m. meaning_of m ≡ act (is.PieceP piece.NextInit) (meanings_of (values_of parts.old))) }
{
    let [_, stars, name, value] = parts else {
        unreachable!()
    };
    build::next_init(alloc, stars, name, value)
}

/// The parameters of a pointer to a function.
pub fn function_part(parts: &mut [Value]) -> Result<Meaning, AllocError>
    requires full { length parts.old ≡ 5 }
    requires stand { StandAt (piece_rhs piece.FunctionPart) parts.old }
    ensures { IfOk result (λ m. meaning_of m ≡ act (is.PieceP piece.FunctionPart) (meanings_of (values_of parts.old))) }
{
    let [_, _, _, _, params] = parts else {
        unreachable!()
    };
    Ok(passed(params))
}
