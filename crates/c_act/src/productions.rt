//! What a production makes of its parts.

ghost use Rattle.std.specs.Prelude.{◌≡◌, length, IfOk};
ghost use Rattle.c_syntax.specs.View.{unit_of};
ghost use Rattle.c_grammar.specs.Grammar.{rhs, piece_rhs};
ghost use Rattle.c_grammar.specs.Tree.{act};
ghost use Rattle.c_grammar.specs.Values.{meanings_of, made, tree_of};
ghost use Rattle.c_grammar.specs.declared.names.Production.TheVariants as is;
ghost use Rattle.c_held.specs.View.{meaning_of, values_of, made_of};
ghost use Rattle.c_held.specs.Shape.{StandAt, Becomes};

use crate::expressions;
use c_act_declarations::{externals, pieces, types};
use c_act_statements::statements;
use c_build::expressions::no_arguments;
use c_build_statements::statements::empty;
use c_declare::declarations::no_params;
use c_declare_externals::externals::externals as externals_of;
use c_facts::facts;
use c_grammar::names::{Piece, Production};
use c_held::parts::place;
use c_held::value::{Made, Meaning, Value};
use c_syntax::tree::{Items, Unit};
use std::alloc::{AllocError, Global};

/// What a piece makes of its parts, one at each of its places. An `Err` is want of memory, here and below.
#[tactic(auto, unfolding(c_grammar::specs::Tree::act))]
fn act_piece(alloc: Global, piece: Piece, parts: &mut [Value]) -> Result<Meaning, AllocError>
    requires full { length parts.old ≡ length (piece_rhs piece) }
    requires stand { StandAt (piece_rhs piece) parts.old }
    ensures { IfOk result (λ m. meaning_of m ≡ act (is.PieceP piece) (meanings_of (values_of parts.old))) }
{
    match piece {
        Piece::NextArgument => pieces::next_argument(parts),
        Piece::FunctionPart => pieces::function_part(parts),
        Piece::Pointer | Piece::Qualifier => Ok(Meaning::Nothing),
        Piece::SecondWord => pieces::second_word(parts),
        Piece::Members => pieces::all_members(alloc, parts),
        Piece::NextMember => pieces::next_member(alloc, parts),
        Piece::AnyLength => pieces::any_length(parts),
        Piece::FullLength => pieces::full_length(parts),
        Piece::NextParam => pieces::next_param(alloc, parts),
        Piece::ParamLengths => pieces::param_lengths(alloc, parts),
        Piece::NamePart => pieces::name_part(parts),
        Piece::Initial => pieces::first_value(parts),
        Piece::NextInit => pieces::next_init(alloc, parts),
    }
}

/// What a production makes of its parts, which are of the kinds that stand at its places.
#[tactic(auto, unfolding(c_grammar::specs::Grammar::rhs))]
fn act(alloc: Global, production: Production, parts: &mut [Value]) -> Result<Meaning, AllocError>
    requires full { length parts.old ≡ length (rhs production) }
    requires stand { StandAt (rhs production) parts.old }
    ensures gives { IfOk result (λ m. meaning_of m ≡ act production (meanings_of (values_of parts.old))) }
    ensures words { IfOk result (λ m. Becomes production m) }
{
    match production {
        Production::Atom => expressions::atom(alloc, parts),
        Production::Parens => expressions::parens(alloc, parts),
        Production::ExprInside => expressions::expression_inside(parts),
        Production::TypeInside => expressions::type_inside(alloc, parts),
        Production::Prefix => expressions::prefix(alloc, parts),
        Production::SizeOf => expressions::size_of(alloc, parts),
        Production::Suffix => expressions::suffix(alloc, parts),
        Production::Member => expressions::member(alloc, parts),
        Production::Index => expressions::index(alloc, parts),
        Production::Call => expressions::call(alloc, parts),
        Production::NoArguments => Ok(no_arguments(alloc)),
        Production::Arguments => expressions::arguments(alloc, parts),
        Production::Assign => expressions::assign(alloc, parts),
        Production::Cond => expressions::cond(alloc, parts),
        Production::CommaExpr => expressions::comma(alloc, parts),
        Production::Cast => expressions::cast(alloc, parts),
        Production::Binary(_) => expressions::binary(alloc, parts),
        Production::PieceP(piece) => act_piece(alloc, piece, parts),
        Production::ConstSpec(external) => types::const_words(external, parts),
        Production::WordSpec(_) => types::one_word(parts),
        Production::SignSpec(_) => types::sign_words(parts),
        Production::StructSpec(false) => types::struct_words(alloc, parts),
        Production::StructSpec(true) => types::struct_with_members(alloc, parts),
        Production::MemberP => types::members(alloc, parts),
        Production::NameCore(_) => types::name_core(alloc, parts),
        Production::FunctionCore(_) => types::function_core(alloc, parts),
        Production::NoParams => Ok(no_params(alloc)),
        Production::Params => types::params(alloc, parts),
        Production::ParamName => types::param_name(alloc, parts),
        Production::ParamFunction => types::param_function(alloc, parts),
        Production::Declaration => types::declaration(alloc, parts),
        Production::FirstValue => types::begin_values(alloc, parts),
        Production::ValueComma => types::value_comma(parts),
        Production::NextValue => types::next_value(alloc, parts),
        Production::Braces => types::braces(alloc, parts),
        Production::Block => statements::block(alloc, parts),
        Production::Empty => Ok(empty()),
        Production::ExprStatement => statements::expression_statement(parts),
        Production::If => statements::if_without_else(alloc, parts),
        Production::IfElse => statements::if_else(alloc, parts),
        Production::While => statements::while_loop(alloc, parts),
        Production::Do => statements::do_loop(alloc, parts),
        Production::For => statements::for_loop(alloc, parts),
        Production::Switch => statements::switch(alloc, parts),
        Production::Return => statements::return_statement(parts),
        Production::Jump => statements::jump(parts),
        Production::CaseLabel => statements::case_label(parts),
        Production::DefaultLabel => statements::default_label(parts),
        Production::Whole => externals::whole(alloc, parts),
        Production::StaticExternal => externals::static_external(parts),
        Production::DeclaredP => externals::declared_external(alloc, parts),
        Production::Pointed => externals::pointed_external(alloc, parts),
        Production::Function => externals::function(alloc, parts),
        Production::Objects => externals::objects(alloc, parts),
    }
}

/// What a production makes of its parts, one at each of its places, with what the grammar asks of it. An `Err` is want of memory.
pub fn made(
    alloc: Global,
    production: Production,
    mut parts: Vec<Value>,
) -> Result<Made, AllocError>
    requires full { length parts.items ≡ length (rhs production) }
    requires stand { StandAt (rhs production) parts.items }
    ensures gives { IfOk result (λ m. made_of m ≡ made production (values_of parts.items)) }
    ensures words { IfOk result (λ m. Becomes production m.meaning) }
{
    let facts = facts(production, parts.as_slice())?;
    let meaning = act(alloc, production, parts.as_mut_slice())?;
    Ok(Made { facts, meaning })
}

/// The tree of a whole text, of its externals and its end, which are taken out.
#[tactic(auto, unfolding(c_grammar::specs::Tree::act))]
fn unit_of(alloc: Global, parts: &mut [Value]) -> Result<Unit, AllocError>
    requires { length parts.old ≡ 2 }
    ensures { IfOk result (λ u. unit_of u ≡ tree_of (values_of parts.old)) }
{
    let [all, end] = parts else { unreachable!() };
    let end = place(end);
    let items = externals_of(alloc, all)?;
    Ok(Unit {
        items: Items { items },
        end,
    })
}

/// The tree of a whole text, of its externals and its end. An `Err` is want of memory.
pub fn unit(alloc: Global, mut parts: Vec<Value>) -> Result<Unit, AllocError>
    requires { length parts.items ≡ 2 }
    ensures { IfOk result (λ u. unit_of u ≡ tree_of (values_of parts.items)) }
{
    unit_of(alloc, parts.as_mut_slice())
}
