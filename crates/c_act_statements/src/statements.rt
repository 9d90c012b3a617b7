//! Statements, of the parts of a production: an `Err` is want of memory.

ghost use Rattle.std.specs.Prelude.{◌≡◌, length, IfOk};
ghost use Rattle.c_grammar.specs.Tree.{act};
ghost use Rattle.c_grammar.specs.Values.{meanings_of};
ghost use Rattle.c_grammar.specs.declared.names.Production.TheVariants as is;
ghost use Rattle.c_held.specs.View.{meaning_of, values_of};

use c_build_statements::statements as build;
use c_held::value::{Meaning, Value};
use std::alloc::{AllocError, Global};

/// An expression as a statement.
pub fn expression_statement(parts: &mut [Value]) -> Result<Meaning, AllocError>
    requires { length parts.old ≡ 2 }
    ensures { IfOk result (λ m. meaning_of m ≡ act is.ExprStatement (meanings_of (values_of parts.old))) }
{
    let [expression, _] = parts else {
        unreachable!()
    };
    Ok(build::expression_statement(expression))
}

/// `break` or `continue`.
pub fn jump(parts: &mut [Value]) -> Result<Meaning, AllocError>
    requires { length parts.old ≡ 2 }
    ensures { IfOk result (λ m. meaning_of m ≡ act is.Jump (meanings_of (values_of parts.old))) }
{
    let [word, _] = parts else { unreachable!() };
    Ok(build::jump(word))
}

/// The label `default`.
pub fn default_label(parts: &mut [Value]) -> Result<Meaning, AllocError>
    requires { length parts.old ≡ 2 }
    ensures { IfOk result (λ m. meaning_of m ≡ act is.DefaultLabel (meanings_of (values_of parts.old))) }
{
    let [word, _] = parts else { unreachable!() };
    Ok(build::default_label(word))
}

/// A block of declarations and statements.
pub fn block(alloc: Global, parts: &mut [Value]) -> Result<Meaning, AllocError>
    requires { length parts.old ≡ 3 }
    ensures { IfOk result (λ m. meaning_of m ≡ act is.Block (meanings_of (values_of parts.old))) }
{
    let [_, statements, _] = parts else {
        unreachable!()
    };
    build::block(alloc, statements)
}

/// An `if` with an `else`.
pub fn if_else(alloc: Global, parts: &mut [Value]) -> Result<Meaning, AllocError>
    requires { length parts.old ≡ 3 }
    ensures { IfOk result (λ m. meaning_of m ≡ act is.IfElse (meanings_of (values_of parts.old))) }
{
    let [branch, _, other] = parts else {
        unreachable!()
    };
    build::if_else(alloc, branch, other)
}

/// A `return`, with or without an expression.
pub fn return_statement(parts: &mut [Value]) -> Result<Meaning, AllocError>
    requires { length parts.old ≡ 3 }
    ensures { IfOk result (λ m. meaning_of m ≡ act is.Return (meanings_of (values_of parts.old))) }
{
    let [word, expression, _] = parts else {
        unreachable!()
    };
    Ok(build::return_statement(word, expression))
}

/// The label of a `case`.
pub fn case_label(parts: &mut [Value]) -> Result<Meaning, AllocError>
    requires { length parts.old ≡ 3 }
    ensures { IfOk result (λ m. meaning_of m ≡ act is.CaseLabel (meanings_of (values_of parts.old))) }
{
    let [word, number, _] = parts else {
        unreachable!()
    };
    Ok(build::case_label(word, number))
}

/// An `if` without an `else`.
pub fn if_without_else(alloc: Global, parts: &mut [Value]) -> Result<Meaning, AllocError>
    requires { length parts.old ≡ 5 }
    ensures { IfOk result (λ m. meaning_of m ≡ act is.If (meanings_of (values_of parts.old))) }
{
    let [_, _, test, _, body] = parts else {
        unreachable!()
    };
    build::if_without_else(alloc, test, body)
}

/// A `while`.
pub fn while_loop(alloc: Global, parts: &mut [Value]) -> Result<Meaning, AllocError>
    requires { length parts.old ≡ 5 }
    ensures { IfOk result (λ m. meaning_of m ≡ act is.While (meanings_of (values_of parts.old))) }
{
    let [_, _, test, _, body] = parts else {
        unreachable!()
    };
    build::while_loop(alloc, test, body)
}

/// A `do`.
pub fn do_loop(alloc: Global, parts: &mut [Value]) -> Result<Meaning, AllocError>
    requires { length parts.old ≡ 7 }
    ensures { IfOk result (λ m. meaning_of m ≡ act is.Do (meanings_of (values_of parts.old))) }
{
    let [_, body, _, _, test, _, _] = parts else {
        unreachable!()
    };
    build::do_loop(alloc, body, test)
}

/// A `switch` with its parts.
pub fn switch(alloc: Global, parts: &mut [Value]) -> Result<Meaning, AllocError>
    requires { length parts.old ≡ 7 }
    ensures { IfOk result (λ m. meaning_of m ≡ act is.Switch (meanings_of (values_of parts.old))) }
{
    let [_, _, subject, _, _, statements, _] = parts else {
        unreachable!()
    };
    build::switch(alloc, subject, statements)
}

/// A `for`.
pub fn for_loop(alloc: Global, parts: &mut [Value]) -> Result<Meaning, AllocError>
    requires { length parts.old ≡ 8 }
    ensures { IfOk result (λ m. meaning_of m ≡ act is.For (meanings_of (values_of parts.old))) }
{
    let [_, _, first, test, _, step, _, body] = parts else {
        unreachable!()
    };
    build::for_loop(alloc, first, test, step, body)
}
