//! Expressions, of the parts of a production: an `Err` is want of memory.

ghost use Rattle.std.specs.Prelude.{◌≡◌, length, IfOk, ℕ};
ghost use Rattle.c_grammar.specs.Grammar.{rhs};
ghost use Rattle.c_grammar.specs.Tree.{act};
ghost use Rattle.c_grammar.specs.Values.{meanings_of};
ghost use Rattle.c_grammar.specs.declared.names.Production.TheVariants as is;
ghost use Rattle.c_held.specs.View.{meaning_of, values_of};
ghost use Rattle.c_held.specs.Shape.{StandAt};

use c_build::expressions;
use c_declare::declarations;
use c_held::parts::passed;
use c_held::value::{Meaning, Value};
use std::alloc::{AllocError, Global};

/// An expression of one token.
pub fn atom(alloc: Global, parts: &mut [Value]) -> Result<Meaning, AllocError>
    requires { length parts.old ≡ 1 }
    ensures { IfOk result (λ m. meaning_of m ≡ act is.Atom (meanings_of (values_of parts.old))) }
{
    let [token] = parts else { unreachable!() };
    Ok(expressions::atom(alloc, token))
}

/// What stands behind an opening bracket: an expression, or a type in brackets.
pub fn parens(alloc: Global, parts: &mut [Value]) -> Result<Meaning, AllocError>
    requires { length parts.old ≡ 2 }
    ensures { IfOk result (λ m. meaning_of m ≡ act is.Parens (meanings_of (values_of parts.old))) }
{
    let [bracket, inside] = parts else {
        unreachable!()
    };
    expressions::parens(alloc, bracket, inside)
}

/// The expression before a closing bracket.
pub fn expression_inside(parts: &mut [Value]) -> Result<Meaning, AllocError>
    requires full { length parts.old ≡ 2 }
    requires stand { StandAt (rhs is.ExprInside) parts.old }
    ensures { IfOk result (λ m. meaning_of m ≡ act is.ExprInside (meanings_of (values_of parts.old))) }
{
    let [expression, _] = parts else {
        unreachable!()
    };
    Ok(passed(expression))
}

/// An operator and its operand.
pub fn prefix(alloc: Global, parts: &mut [Value]) -> Result<Meaning, AllocError>
    requires { length parts.old ≡ 2 }
    ensures { IfOk result (λ m. meaning_of m ≡ act is.Prefix (meanings_of (values_of parts.old))) }
{
    let [mark, operand] = parts else {
        unreachable!()
    };
    expressions::prefix(alloc, mark, operand)
}

/// `sizeof` and what it measures.
pub fn size_of(alloc: Global, parts: &mut [Value]) -> Result<Meaning, AllocError>
    requires { length parts.old ≡ 2 }
    ensures { IfOk result (λ m. meaning_of m ≡ act is.SizeOf (meanings_of (values_of parts.old))) }
{
    let [word, operand] = parts else {
        unreachable!()
    };
    expressions::size_of(alloc, word, operand)
}

/// An operand and a step behind it.
pub fn suffix(alloc: Global, parts: &mut [Value]) -> Result<Meaning, AllocError>
    requires { length parts.old ≡ 2 }
    ensures { IfOk result (λ m. meaning_of m ≡ act is.Suffix (meanings_of (values_of parts.old))) }
{
    let [operand, mark] = parts else {
        unreachable!()
    };
    expressions::suffix(alloc, operand, mark)
}

/// A cast, of a type in brackets and an operand.
pub fn cast(alloc: Global, parts: &mut [Value]) -> Result<Meaning, AllocError>
    requires { length parts.old ≡ 2 }
    ensures { IfOk result (λ m. meaning_of m ≡ act is.Cast (meanings_of (values_of parts.old))) }
{
    let [bracketed, operand] = parts else {
        unreachable!()
    };
    expressions::cast(alloc, bracketed, operand)
}

/// A member of a struct, or of what a pointer points at.
pub fn member(alloc: Global, parts: &mut [Value]) -> Result<Meaning, AllocError>
    requires { length parts.old ≡ 3 }
    ensures { IfOk result (λ m. meaning_of m ≡ act is.Member (meanings_of (values_of parts.old))) }
{
    let [operand, mark, name] = parts else {
        unreachable!()
    };
    expressions::member(alloc, operand, mark, name)
}

/// A call, of what is called and the arguments.
pub fn call(alloc: Global, parts: &mut [Value]) -> Result<Meaning, AllocError>
    requires { length parts.old ≡ 3 }
    ensures { IfOk result (λ m. meaning_of m ≡ act is.Call (meanings_of (values_of parts.old))) }
{
    let [called, bracket, arguments] = parts else {
        unreachable!()
    };
    expressions::call(alloc, called, bracket, arguments)
}

/// The arguments of a call.
pub fn arguments(alloc: Global, parts: &mut [Value]) -> Result<Meaning, AllocError>
    requires { length parts.old ≡ 3 }
    ensures { IfOk result (λ m. meaning_of m ≡ act is.Arguments (meanings_of (values_of parts.old))) }
{
    let [first, others, _] = parts else {
        unreachable!()
    };
    expressions::arguments(alloc, first, others)
}

/// A binary operator between its operands.
pub fn binary(alloc: Global, parts: &mut [Value]) -> Result<Meaning, AllocError>
    requires { length parts.old ≡ 3 }
    ensures { (n : ℕ) → IfOk result (λ m. meaning_of m ≡ act (is.Binary n) (meanings_of (values_of parts.old))) }
{
    let [left, mark, right] = parts else {
        unreachable!()
    };
    expressions::binary(alloc, left, mark, right)
}

/// An assignment.
pub fn assign(alloc: Global, parts: &mut [Value]) -> Result<Meaning, AllocError>
    requires { length parts.old ≡ 3 }
    ensures { IfOk result (λ m. meaning_of m ≡ act is.Assign (meanings_of (values_of parts.old))) }
{
    let [left, mark, right] = parts else {
        unreachable!()
    };
    expressions::assign(alloc, left, mark, right)
}

/// Two expressions behind one another.
pub fn comma(alloc: Global, parts: &mut [Value]) -> Result<Meaning, AllocError>
    requires { length parts.old ≡ 3 }
    ensures { IfOk result (λ m. meaning_of m ≡ act is.CommaExpr (meanings_of (values_of parts.old))) }
{
    let [left, mark, right] = parts else {
        unreachable!()
    };
    expressions::comma(alloc, left, mark, right)
}

/// The type before a closing bracket.
pub fn type_inside(alloc: Global, parts: &mut [Value]) -> Result<Meaning, AllocError>
    requires { length parts.old ≡ 4 }
    ensures { IfOk result (λ m. meaning_of m ≡ act is.TypeInside (meanings_of (values_of parts.old))) }
{
    let [words, stars, function, _] = parts else {
        unreachable!()
    };
    declarations::type_inside(alloc, words, stars, function)
}

/// An element of an array.
pub fn index(alloc: Global, parts: &mut [Value]) -> Result<Meaning, AllocError>
    requires { length parts.old ≡ 4 }
    ensures { IfOk result (λ m. meaning_of m ≡ act is.Index (meanings_of (values_of parts.old))) }
{
    let [array, bracket, index, _] = parts else {
        unreachable!()
    };
    expressions::index(alloc, array, bracket, index)
}

/// A choice between two expressions.
pub fn cond(alloc: Global, parts: &mut [Value]) -> Result<Meaning, AllocError>
    requires { length parts.old ≡ 5 }
    ensures { IfOk result (λ m. meaning_of m ≡ act is.Cond (meanings_of (values_of parts.old))) }
{
    let [test, mark, first, _, second] = parts else {
        unreachable!()
    };
    expressions::cond(alloc, test, mark, first, second)
}
