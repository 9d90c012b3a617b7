//! What a parser asks of a part that was read.

ghost use Rattle.std.specs.Prelude.{◌≡◌, ◌∷◌, [], ◌+◌, ◌-◌, ◌<◌, length, IfOk, Some, None, slice_get};
ghost use Rattle.std.specs.Option.{option_copied};
ghost use Rattle.c_grammar.specs.Spelling.{is_if, has_body};
ghost use Rattle.c_grammar.specs.Nesting.{operators_of, piece_stars};
ghost use Rattle.c_grammar.specs.Values as values;
ghost use Rattle.c_held.specs.View.{value_at, values_of, facts_of, row_of};

use c_grammar::names::{Category, Piece, Production};
use c_held::value::{Facts, Made, Value};
use std::alloc::AllocError;
use std::collections::VecDeque;

fn inside_of(value: &Value) -> Category
    ensures { result ≡ values.inside_of (value_at value.now) }
{
    match value {
        Value::Part(made) => if made.facts.type_inside {
            Category::BracketedType
        } else {
            Category::Level(15)
        },
        _ => Category::Level(15),
    }
}

fn second(parts: &[Value]) -> Option<&Value>
    ensures { option_copied result ≡ slice_get parts.now 1 }
{
    parts.get(1)
}

#[tactic(auto, using(crate::proofs::Asked::second_inside, crate::proofs::Asked::none_inside))]
fn brackets_of(parts: &[Value]) -> Category
    ensures { result ≡ values.brackets_of (values_of parts.now) }
{
    match second(parts) {
        Some(value) => inside_of(value),
        None => Category::Level(15),
    }
}

#[tactic(auto, using(crate::proofs::Asked::blank_row, crate::proofs::Asked::filled_row))]
fn is_blank(value: &Value) -> bool
    ensures { result ≡ values.is_blank (value_at value.now) }
{
    match value {
        Value::Row(row) => match row.front() {
            Some(_) => false,
            None => true,
        },
        _ => false,
    }
}

#[tactic(auto, using(crate::proofs::Asked::second_blank, crate::proofs::Asked::none_blank))]
fn has_none(parts: &[Value]) -> bool
    ensures { result ≡ values.has_none (values_of parts.now) }
{
    match second(parts) {
        Some(value) => is_blank(value),
        None => false,
    }
}

fn is_open(value: &Value) -> bool
    ensures { result ≡ values.is_open (value_at value.now) }
{
    match value {
        Value::Part(made) => made.facts.ends_open,
        _ => false,
    }
}

#[tactic(auto, using(crate::proofs::Asked::last_open, crate::proofs::Asked::none_open))]
fn last_is_open(parts: &[Value]) -> bool
    ensures { result ≡ values.last_is_open (values_of parts.now) }
{
    match parts.last() {
        Some(value) => is_open(value),
        None => false,
    }
}

fn category_of(production: Production, parts: &[Value]) -> Category
    ensures { result ≡ values.category_of production (values_of parts.now) }
{
    match production {
        Production::Atom => Category::Level(15),
        Production::Parens => brackets_of(parts),
        Production::ExprInside => Category::InsideC,
        Production::TypeInside => Category::InsideC,
        Production::Prefix => Category::Level(14),
        Production::SizeOf => Category::Level(14),
        Production::Suffix => Category::Level(15),
        Production::Member => Category::Level(15),
        Production::Index => Category::Level(15),
        Production::Call => Category::Level(15),
        Production::NoArguments => Category::CallEndC,
        Production::Arguments => Category::CallEndC,
        Production::Binary(level) => Category::Level(level),
        Production::Assign => Category::Level(1),
        Production::Cond => Category::Level(2),
        Production::CommaExpr => Category::Level(0),
        Production::Cast => Category::Level(13),
        Production::PieceP(piece) => Category::PieceC(piece),
        Production::ConstSpec(external) => Category::SpecC(external),
        Production::WordSpec(external) => Category::SpecC(external),
        Production::SignSpec(external) => Category::SpecC(external),
        Production::StructSpec(external) => Category::SpecC(external),
        Production::MemberP => Category::MemberC,
        Production::NameCore(any) => Category::CoreC(any, has_none(parts)),
        Production::FunctionCore(any) => Category::CoreC(any, false),
        Production::NoParams => Category::ParamsEndC,
        Production::Params => Category::ParamsEndC,
        Production::ParamName => Category::ParamTailC,
        Production::ParamFunction => Category::ParamTailC,
        Production::Declaration => Category::DeclarationC,
        Production::FirstValue => Category::ValuesC,
        Production::ValueComma => Category::ValuesCommaC,
        Production::NextValue => Category::ValuesC,
        Production::Braces => Category::BracesC,
        Production::Block => Category::BlockC,
        Production::Empty => Category::EmptyC,
        Production::ExprStatement => Category::ExprStatementC,
        Production::If => Category::IfC(last_is_open(parts)),
        Production::IfElse => Category::StatementC,
        Production::While => Category::StatementC,
        Production::Do => Category::StatementC,
        Production::For => Category::StatementC,
        Production::Switch => Category::StatementC,
        Production::Return => Category::StatementC,
        Production::Jump => Category::StatementC,
        Production::CaseLabel => Category::LabelC,
        Production::DefaultLabel => Category::LabelC,
        Production::Whole => Category::UnitC,
        Production::StaticExternal => Category::StaticC,
        Production::DeclaredP => Category::DeclaredC,
        Production::Pointed => Category::RestC,
        Production::Function => Category::RestC,
        Production::Objects => Category::RestC,
    }
}

fn ends_open(production: Production, parts: &[Value]) -> bool
    ensures { result ≡ (values.facts_of production (values_of parts.now)).open' }
{
    match production {
        Production::If => true,
        Production::IfElse => last_is_open(parts),
        Production::While => last_is_open(parts),
        Production::For => last_is_open(parts),
        _ => false,
    }
}

fn sum(a: u32, b: u32) -> Result<u32, AllocError>
    ensures { IfOk result (λ n. n ≡ a + b) }
{
    match a.checked_add(b) {
        Some(n) => Ok(n),
        None => Err(AllocError),
    }
}

fn operators_in(value: &Value) -> u32
    ensures { result ≡ values.operators_in (value_at value.now) }
{
    match value {
        Value::Part(made) => made.facts.operators,
        _ => 0,
    }
}

// The operators of some parts.
fn all_operators(parts: &[Value]) -> Result<u32, AllocError>
    ensures { IfOk result (λ n. n ≡ values.all_operators_in (values_of parts.now)) }
{
    let mut count = 0u32;
    for part in parts {
        count = sum(count, operators_in(part))?;
    }
    Ok(count)
}

// By those of the first part and those of the others.
fn operators_of(production: Production, first: u32, others: u32) -> Result<u32, AllocError>
    ensures { IfOk result (λ n. n ≡ operators_of production first others) }
{
    match production {
        Production::Prefix | Production::SizeOf | Production::Cast => sum(others, 1),
        Production::Suffix | Production::Member | Production::Index | Production::Call => {
            sum(first, 1)
        }
        Production::Binary(_) | Production::Assign | Production::CommaExpr | Production::Cond =>
            sum(sum(first, others)?, 1),
        _ => Ok(0),
    }
}

#[tactic(auto, using(crate::proofs::Asked::first_operators, crate::proofs::Asked::none_operators))]
fn operators_made(production: Production, parts: &[Value]) -> Result<u32, AllocError>
    ensures { IfOk result (λ n. n ≡ values.operators_made production (values_of parts.now)) }
{
    let all = all_operators(parts)?;
    match parts.first() {
        Some(value) => {
            let first = operators_in(value);
            operators_of(production, first, all.saturating_sub(first))
        }
        None => Ok(0),
    }
}

fn stars_made(production: Production) -> u32
    ensures { result ≡ values.stars_made production }
{
    match production {
        Production::PieceP(Piece::Pointer) => 1,
        Production::PieceP(Piece::AnyLength) => 1,
        Production::PieceP(Piece::FullLength) => 1,
        _ => 0,
    }
}

fn is_type_inside(production: Production) -> bool
    ensures { result ≡ values.is_type_inside production }
{
    match production {
        Production::TypeInside => true,
        _ => false,
    }
}

/// What a parser asks of what a production has made of its parts.
pub fn facts(production: Production, parts: &[Value]) -> Result<Facts, AllocError>
    ensures { IfOk result (λ f. facts_of f ≡ values.facts_of production (values_of parts.now)) }
{
    Ok(Facts {
        category: category_of(production, parts),
        ends_open: ends_open(production, parts),
        operators: operators_made(production, parts)?,
        stars: stars_made(production),
        type_inside: is_type_inside(production),
    })
}
