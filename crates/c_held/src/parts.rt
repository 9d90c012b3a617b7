//! What a value says.

ghost use Rattle.std.specs.Prelude.{◌≡◌, [], drop, map, MatchOption};
ghost use Rattle.c_syntax.specs.Plain.{CTy};
ghost use Rattle.c_syntax.specs.View.{expr_of, maybe, ty_of, value_of, maybe_value, decls_of, stmt_of};
ghost use Rattle.c_grammar.specs.Tree as grammar;
ghost use Rattle.c_grammar.specs.Tree.{Meanings, more, none};
ghost use Rattle.c_syntax.specs.declared.token.Kind.TheVariants as kind;
ghost use Rattle.c_grammar.specs.Values.{meanings_of};
ghost use Rattle.c_held.specs.View.{meaning_of, means, row_of, declared_of};
ghost use Rattle.c_held.specs.Shape.{IsOne};

use crate::value::{Declarator, Declared, Made, Meaning, Value};
use c_syntax::text::Text;
use c_syntax::tree::{self, Decl, Expr, Form, Stmt};
use c_syntax::{Key, Kind, Mark, Token};
use std::alloc::Global;
use std::collections::VecDeque;
use std::mem;

/// The mark of a token; a semicolon where it is none.
pub fn mark(kind: &Kind) -> Mark
    ensures { result ≡ grammar.the_mark kind.now }
{
    match kind {
        Kind::Mark(mark) => *mark,
        _ => Mark::Semi,
    }
}

/// The keyword of a token; `auto` where it is none.
pub fn key(kind: &Kind) -> Key
    ensures { result ≡ grammar.the_key kind.now }
{
    match kind {
        Kind::Key(key) => *key,
        _ => Key::Auto,
    }
}

// The end, at a place.
fn end_at(pos: u32) -> Token
    ensures kind { result.kind ≡ kind.End }
    ensures pos { result.pos ≡ pos }
{
    Token {
        kind: Kind::End,
        pos,
    }
}

/// The token that a meaning is, taken out of it; the end, at the place of what is none.
pub fn take_token(part: &mut Meaning) -> Token
    ensures kind { result.kind ≡ grammar.word (meaning_of part.old) }
    ensures pos { result.pos ≡ grammar.place (meaning_of part.old) }
    ensures name { grammar.kind_name result.kind ≡ grammar.name (meaning_of part.old) }
{
    match part {
        Meaning::Word(token) => mem::replace(token, end_at(0)),
        Meaning::Bracketed(pos, _) => end_at(*pos),
        Meaning::Words(_, pos, _, _) => end_at(*pos),
        _ => end_at(0),
    }
}

/// The token that a value is, taken out of it; the end, at the place of what is none.
pub fn token(value: &mut Value) -> Token
    ensures kind { result.kind ≡ grammar.word (means value.old) }
    ensures pos { result.pos ≡ grammar.place (means value.old) }
    ensures name { grammar.kind_name result.kind ≡ grammar.name (means value.old) }
{
    match value {
        Value::Token(token) => mem::replace(token, end_at(0)),
        Value::Part(made) => take_token(&mut made.meaning),
        Value::Row(_) => end_at(0),
    }
}

/// The place of what stands first.
pub fn place(value: &Value) -> u32
    ensures { result ≡ grammar.place (means value.now) }
{
    match value {
        Value::Token(token) => token.pos,
        Value::Part(made) => place_in(&made.meaning),
        Value::Row(_) => 0,
    }
}

fn place_in(part: &Meaning) -> u32
    ensures { result ≡ grammar.place (meaning_of part.now) }
{
    match part {
        Meaning::Word(token) => token.pos,
        Meaning::Bracketed(pos, _) => *pos,
        Meaning::Words(_, pos, _, _) => *pos,
        _ => 0,
    }
}

/// A text of no bytes.
pub fn no_text(alloc: Global) -> Text
    ensures { result ≡ [] }
{
    Text::from_bytes(Vec::new(alloc))
}

/// The text of a name, taken out of it; empty where it is none.
pub fn text(alloc: Global, kind: &mut Kind) -> Text
    ensures { result ≡ grammar.kind_name kind.old }
{
    match kind {
        Kind::Name(text) => mem::replace(text, no_text(alloc)),
        _ => no_text(alloc),
    }
}

/// What stands for an expression where there is none.
pub fn null() -> Expr
    ensures { expr_of result ≡ grammar.expression grammar.Nothing }
{
    Expr {
        pos: 0,
        form: Form::Null,
    }
}

/// The expression that a meaning is, taken out of it.
pub fn take_expression(part: &mut Meaning) -> Expr
    ensures { expr_of result ≡ grammar.expression (meaning_of part.old) }
{
    match part {
        Meaning::Expression(expr) => mem::replace(expr, null()),
        _ => null(),
    }
}

/// The expression that a value is, taken out of it.
pub fn expression(value: &mut Value) -> Expr
    ensures { expr_of result ≡ grammar.expression (means value.old) }
{
    match value {
        Value::Part(made) => take_expression(&mut made.meaning),
        _ => null(),
    }
}

/// What the first part of a row stands for.
#[tactic(auto, using(crate::proofs::Empties::begins_with_none, crate::proofs::Empties::begins_with))]
pub fn first(row: &mut VecDeque<Made>) -> Option<&mut Meaning>
    ensures { MatchOption result (meanings_of (row_of row.old.items) ≡ none) (λ m. meanings_of (row_of row.old.items) ≡ more (meaning_of m.now) (meanings_of (row_of (drop 1 row.old.items)))) }
{
    match row.front_mut() {
        Some(made) => Some(&mut made.meaning),
        None => None,
    }
}

fn take_only_expression(part: &mut Meaning) -> Option<Expr>
    ensures { (ms : Meanings) → maybe result ≡ grammar.maybe_expression (grammar.Several (more (meaning_of part.old) ms)) }
{
    match part {
        Meaning::Expression(expr) => Some(mem::replace(expr, null())),
        _ => None,
    }
}

/// The expression that a row has, taken out of it, if there is one.
pub fn maybe_expression(value: &mut Value) -> Option<Expr>
    ensures { maybe result ≡ grammar.maybe_expression (means value.old) }
{
    match value {
        Value::Row(row) => match first(row) {
            Some(part) => take_only_expression(part),
            None => None,
        },
        _ => None,
    }
}

/// The expressions of a call, taken out of a meaning.
pub fn take_expressions(alloc: Global, part: &mut Meaning) -> Vec<Expr>
    ensures { map expr_of result.items ≡ grammar.expressions (meaning_of part.old) }
{
    match part {
        Meaning::Expressions(all) => mem::replace(all, Vec::new(alloc)),
        _ => Vec::new(alloc),
    }
}

/// The expressions of a call, taken out of a value.
pub fn expressions(alloc: Global, value: &mut Value) -> Vec<Expr>
    ensures { map expr_of result.items ≡ grammar.expressions (means value.old) }
{
    match value {
        Value::Part(made) => take_expressions(alloc, &mut made.meaning),
        _ => Vec::new(alloc),
    }
}

/// The statement that a meaning is, taken out of it.
pub fn take_statement(part: &mut Meaning) -> Stmt
    ensures { stmt_of result ≡ grammar.statement (meaning_of part.old) }
{
    match part {
        Meaning::Statement(stmt) => mem::replace(stmt, Stmt::Empty),
        _ => Stmt::Empty,
    }
}

/// The statement that a value is, taken out of it.
pub fn statement(value: &mut Value) -> Stmt
    ensures { stmt_of result ≡ grammar.statement (means value.old) }
{
    match value {
        Value::Part(made) => take_statement(&mut made.meaning),
        _ => Stmt::Empty,
    }
}

fn no_initial() -> tree::Value
    ensures { value_of result ≡ grammar.value grammar.Nothing }
{
    tree::Value::One(null())
}

fn take_initial(part: &mut Meaning) -> tree::Value
    ensures { value_of result ≡ grammar.value (meaning_of part.old) }
{
    match part {
        Meaning::Initial(value) => mem::replace(value, no_initial()),
        Meaning::Expression(expr) => tree::Value::One(mem::replace(expr, null())),
        _ => no_initial(),
    }
}

/// The first value that a value is, taken out of it.
pub fn initial(value: &mut Value) -> tree::Value
    ensures { value_of result ≡ grammar.value (means value.old) }
{
    match value {
        Value::Part(made) => take_initial(&mut made.meaning),
        _ => no_initial(),
    }
}

/// The first value that a row has, taken out of it, if there is one.
pub fn maybe_initial(value: &mut Value) -> Option<tree::Value>
    ensures { maybe_value result ≡ grammar.maybe_value (means value.old) }
{
    match value {
        Value::Row(row) => match first(row) {
            Some(part) => Some(take_initial(part)),
            None => None,
        },
        _ => None,
    }
}

/// First values, taken out of a meaning.
pub fn take_initials(alloc: Global, part: &mut Meaning) -> Vec<tree::Value>
    ensures { map value_of result.items ≡ grammar.value_list (meaning_of part.old) }
{
    match part {
        Meaning::Initials(all) => mem::replace(all, Vec::new(alloc)),
        _ => Vec::new(alloc),
    }
}

/// First values, taken out of a value.
pub fn initials(alloc: Global, value: &mut Value) -> Vec<tree::Value>
    ensures { map value_of result.items ≡ grammar.value_list (means value.old) }
{
    match value {
        Value::Part(made) => take_initials(alloc, &mut made.meaning),
        _ => Vec::new(alloc),
    }
}

/// Declarations, taken out of a meaning.
pub fn take_declarations(alloc: Global, part: &mut Meaning) -> Vec<Decl>
    ensures { decls_of result.items ≡ grammar.declarations (meaning_of part.old) }
{
    match part {
        Meaning::Declarations(all) => mem::replace(all, Vec::new(alloc)),
        _ => Vec::new(alloc),
    }
}

/// Declarations, taken out of a value.
pub fn declarations(alloc: Global, value: &mut Value) -> Vec<Decl>
    ensures { decls_of result.items ≡ grammar.declarations (means value.old) }
{
    match value {
        Value::Part(made) => take_declarations(alloc, &mut made.meaning),
        _ => Vec::new(alloc),
    }
}

/// What stands for what is declared where nothing is.
pub fn nothing_declared(alloc: Global) -> Declared
    ensures { (t : CTy) → declared_of result t ≡ grammar.declares grammar.Nothing t }
{
    Declared::Of(Declarator {
        name: no_text(alloc),
        pos: 0,
        layers: Vec::new(alloc),
        first: None,
    })
}

/// What a meaning declares of a type, taken out of it.
pub fn take_declared(alloc: Global, part: &mut Meaning) -> Declared
    ensures { (t : CTy) → declared_of result t ≡ grammar.declares (meaning_of part.old) t }
{
    match part {
        Meaning::Declares(declared) => mem::replace(declared, nothing_declared(alloc)),
        _ => nothing_declared(alloc),
    }
}

/// What a value declares of a type, taken out of it.
pub fn declared(alloc: Global, value: &mut Value) -> Declared
    ensures { (t : CTy) → declared_of result t ≡ grammar.declares (means value.old) t }
{
    match value {
        Value::Part(made) => take_declared(alloc, &mut made.meaning),
        _ => nothing_declared(alloc),
    }
}

/// Whether a row is empty.
#[tactic(auto, using(crate::proofs::Empties::row_with_none, crate::proofs::Empties::row_with_some))]
pub fn is_none(value: &Value) -> bool
    ensures { result ≡ grammar.is_none (means value.now) }
{
    match value {
        Value::Row(row) => match row.front() {
            Some(_) => false,
            None => true,
        },
        _ => false,
    }
}

/// The meaning of what is no row, taken out of it.
pub fn passed(value: &mut Value) -> Meaning
    requires { IsOne value.old }
    ensures { meaning_of result ≡ means value.old }
{
    match value {
        Value::Token(token) => Meaning::Word(mem::replace(token, end_at(0))),
        Value::Part(made) => mem::replace(&mut made.meaning, Meaning::Nothing),
        Value::Row(_) => Meaning::Nothing,
    }
}
