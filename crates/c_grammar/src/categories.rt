//! Which productions a part may be, and which begin with a part that was read.

ghost use Rattle.std.specs.Prelude.{◌≡◌, Some};
ghost use Rattle.c_grammar.specs.Spelling.{accepts, same, piece_code, takes_level, takes_type, takes_spec, takes_core, takes_piece, takes_if, is_statement, takes_empty, takes_expr_statement, takes_block, takes_declaration, takes_declared, takes_rest, takes_values, takes_values_comma, is_inside, is_call_end, is_params_end, is_param_tail, is_member, is_value, is_switch_part, is_external};
ghost use Rattle.c_grammar.specs.Machine.{announced, extension, extended, floor, expr_ending, expr_announced, cast_announced, spec_announced, core_ending, core_announced, values_announced, else_announced};

use crate::names::{Category, Class, Part, Piece, Production};
use crate::tables::{level, or_else};

// Whether two are the same.
fn same(a: bool, b: bool) -> bool
    ensures { result ≡ same a b }
{
    if a { b } else { !b }
}

// A number for each piece.
fn piece_code(piece: Piece) -> u32
    ensures { result ≡ piece_code piece }
{
    match piece {
        Piece::NextArgument => 0,
        Piece::FunctionPart => 1,
        Piece::Pointer => 2,
        Piece::Qualifier => 3,
        Piece::SecondWord => 4,
        Piece::Members => 5,
        Piece::NextMember => 6,
        Piece::AnyLength => 7,
        Piece::FullLength => 8,
        Piece::NextParam => 9,
        Piece::ParamLengths => 10,
        Piece::NamePart => 11,
        Piece::Initial => 12,
        Piece::NextInit => 13,
    }
}

// Whether it may be any statement.
fn is_statement(part: Part) -> bool
    ensures { result ≡ is_statement part }
{
    match part {
        Part::Statement => true,
        Part::BlockItem => true,
        Part::SwitchPart => true,
        _ => false,
    }
}

// Whether it is the inside of brackets.
fn is_inside(part: Part) -> bool
    ensures { result ≡ is_inside part }
{
    match part {
        Part::Inside => true,
        _ => false,
    }
}

// Whether it is the end of a call.
fn is_call_end(part: Part) -> bool
    ensures { result ≡ is_call_end part }
{
    match part {
        Part::CallEnd => true,
        _ => false,
    }
}

// Whether it is the end of parameters.
fn is_params_end(part: Part) -> bool
    ensures { result ≡ is_params_end part }
{
    match part {
        Part::ParamsEnd => true,
        _ => false,
    }
}

// Whether it is the end of a parameter.
fn is_param_tail(part: Part) -> bool
    ensures { result ≡ is_param_tail part }
{
    match part {
        Part::ParamTail => true,
        _ => false,
    }
}

// Whether it is a declaration of members.
fn is_member(part: Part) -> bool
    ensures { result ≡ is_member part }
{
    match part {
        Part::MemberDecl => true,
        _ => false,
    }
}

// Whether it is a value.
fn is_value(part: Part) -> bool
    ensures { result ≡ is_value part }
{
    match part {
        Part::Value => true,
        _ => false,
    }
}

// Whether it is a part of a `switch`.
fn is_switch_part(part: Part) -> bool
    ensures { result ≡ is_switch_part part }
{
    match part {
        Part::SwitchPart => true,
        _ => false,
    }
}

// Whether it is an external.
fn is_external(part: Part) -> bool
    ensures { result ≡ is_external part }
{
    match part {
        Part::External => true,
        _ => false,
    }
}

// Whether it may be a semicolon.
fn takes_empty(part: Part) -> bool
    ensures { result ≡ takes_empty part }
{
    match part {
        Part::ForFirst => true,
        Part::FunctionEnd => true,
        Part::ExternalRest => true,
        _ => is_statement(part),
    }
}

// Whether it may be an expression and a semicolon.
fn takes_expr_statement(part: Part) -> bool
    ensures { result ≡ takes_expr_statement part }
{
    match part {
        Part::ForFirst => true,
        _ => is_statement(part),
    }
}

// Whether it may be a block.
fn takes_block(part: Part) -> bool
    ensures { result ≡ takes_block part }
{
    match part {
        Part::FunctionEnd => true,
        _ => is_statement(part),
    }
}

// Whether it may be a declaration.
fn takes_declaration(part: Part) -> bool
    ensures { result ≡ takes_declaration part }
{
    match part {
        Part::BlockItem => true,
        Part::SwitchPart => true,
        Part::ForFirst => true,
        _ => false,
    }
}

// Whether it may be an external without `static`.
fn takes_declared(part: Part) -> bool
    ensures { result ≡ takes_declared part }
{
    match part {
        Part::External => true,
        Part::Declared => true,
        _ => false,
    }
}

// Whether it may be the rest of an external.
fn takes_rest(part: Part) -> bool
    ensures { result ≡ takes_rest part }
{
    match part {
        Part::ExternalRest => true,
        Part::DeclaredRest => true,
        _ => false,
    }
}

// Whether it may be values so far.
fn takes_values(part: Part) -> bool
    ensures { result ≡ takes_values part }
{
    match part {
        Part::Values => true,
        Part::ValuesEnd => true,
        _ => false,
    }
}

// Whether it may be values and a comma.
fn takes_values_comma(part: Part) -> bool
    ensures { result ≡ takes_values_comma part }
{
    match part {
        Part::ValuesComma => true,
        Part::ValuesEnd => true,
        _ => false,
    }
}

// Whether it may be an expression of a level.
fn takes_level(k: u32, part: Part) -> bool
    ensures { result ≡ takes_level k part }
{
    match part {
        Part::Expr(n) => n <= k,
        Part::Value => 1 <= k,
        _ => false,
    }
}

// Whether it may be a type in brackets.
fn takes_type(part: Part) -> bool
    ensures { result ≡ takes_type part }
{
    match part {
        Part::Expr(n) => n == 14,
        Part::CastHead => true,
        _ => false,
    }
}

// Whether it may be the words of a type.
fn takes_spec(e: bool, part: Part) -> bool
    ensures { result ≡ takes_spec e part }
{
    match part {
        Part::Spec(e2) => same(e, e2),
        _ => false,
    }
}

// Whether it may be a declared name.
fn takes_core(o: bool, bare: bool, part: Part) -> bool
    ensures { result ≡ takes_core o bare part }
{
    match part {
        Part::Core(o2) => same(o, o2),
        Part::BareName => o && bare,
        _ => false,
    }
}

// Whether it may be an `if`.
fn takes_if(o: bool, part: Part) -> bool
    ensures { result ≡ takes_if o part }
{
    match part {
        Part::IfHead => same(o, false),
        _ => is_statement(part),
    }
}

// Whether it may be a piece.
fn takes_piece(piece: Piece, part: Part) -> bool
    ensures { result ≡ takes_piece piece part }
{
    match part {
        Part::Only(j) => piece_code(j) == piece_code(piece),
        Part::ParamTail => match piece {
            Piece::ParamLengths => true,
            _ => false,
        },
        _ => false,
    }
}

/// Whether a part may be what a production of this category spells.
pub fn accepts(category: Category, part: Part) -> bool
    ensures { result ≡ accepts category part }
{
    match category {
        Category::Level(k) => takes_level(k, part),
        Category::BracketedType => takes_type(part),
        Category::InsideC => is_inside(part),
        Category::CallEndC => is_call_end(part),
        Category::ParamsEndC => is_params_end(part),
        Category::SpecC(e) => takes_spec(e, part),
        Category::CoreC(o, bare) => takes_core(o, bare, part),
        Category::PieceC(k) => takes_piece(k, part),
        Category::ParamTailC => is_param_tail(part),
        Category::MemberC => is_member(part),
        Category::BracesC => is_value(part),
        Category::ValuesC => takes_values(part),
        Category::ValuesCommaC => takes_values_comma(part),
        Category::IfC(o) => takes_if(o, part),
        Category::StatementC => is_statement(part),
        Category::EmptyC => takes_empty(part),
        Category::ExprStatementC => takes_expr_statement(part),
        Category::BlockC => takes_block(part),
        Category::DeclarationC => takes_declaration(part),
        Category::LabelC => is_switch_part(part),
        Category::UnitC => false,
        Category::StaticC => is_external(part),
        Category::DeclaredC => takes_declared(part),
        Category::RestC => takes_rest(part),
    }
}

// The production of an operator that follows an operand of level `k`, where one of level `n` at least is wanted.
fn if_reached(
    n: u32,
    k: u32,
    level: u32,
    operand: u32,
    production: Production,
) -> Option<Production>
    ensures { result ≡ extended n k (Some (record { level = level; operand = operand; production = production })) }
{
    if n <= level && operand <= k {
        Some(production)
    } else {
        None
    }
}

// The production of an operator behind an operand.
fn extended(n: u32, k: u32, class: Class) -> Option<Production>
    ensures { result ≡ extended n k (extension class) }
{
    match class {
        Class::Step => if_reached(n, k, 15, 15, Production::Suffix),
        Class::Dot => if_reached(n, k, 15, 15, Production::Member),
        Class::LBracket => if_reached(n, k, 15, 15, Production::Index),
        Class::LParen => if_reached(n, k, 15, 15, Production::Call),
        Class::Question => if_reached(n, k, 2, 3, Production::Cond),
        Class::Equals => if_reached(n, k, 1, 2, Production::Assign),
        Class::Compound => if_reached(n, k, 1, 2, Production::Assign),
        Class::Comma => if_reached(n, k, 0, 0, Production::CommaExpr),
        _ => match level(class) {
            Some(l) => if_reached(n, k, l, l, Production::Binary(l)),
            None => None,
        },
    }
}

// The least level of an expression that a part begins with.
fn floor(part: Part) -> Option<u32>
    ensures { result ≡ floor part }
{
    match part {
        Part::Expr(n) => Some(n),
        Part::Inside => Some(0),
        Part::CallEnd => Some(1),
        Part::Value => Some(1),
        Part::Statement => Some(0),
        Part::BlockItem => Some(0),
        Part::SwitchPart => Some(0),
        Part::ForFirst => Some(0),
        _ => None,
    }
}

// The production of a part that an expression begins.
fn expr_ending(part: Part) -> Option<Production>
    ensures { result ≡ expr_ending part }
{
    match part {
        Part::Inside => Some(Production::ExprInside),
        Part::CallEnd => Some(Production::Arguments),
        Part::Statement => Some(Production::ExprStatement),
        Part::BlockItem => Some(Production::ExprStatement),
        Part::SwitchPart => Some(Production::ExprStatement),
        Part::ForFirst => Some(Production::ExprStatement),
        _ => None,
    }
}

// What an expression begins, before a class.
fn expr_announced(k: u32, part: Part, class: Class) -> Option<Production>
    ensures { result ≡ expr_announced (floor part) k part class }
{
    match floor(part) {
        None => None,
        Some(n) => or_else(extended(n, k, class), expr_ending(part)),
    }
}

// What a type in brackets begins.
fn cast_announced(part: Part) -> Option<Production>
    ensures { result ≡ cast_announced (floor part) }
{
    match floor(part) {
        None => None,
        Some(n) => if n <= 13 {
            Some(Production::Cast)
        } else {
            None
        },
    }
}

// What the words of a type begin.
fn spec_announced(e: bool, part: Part) -> Option<Production>
    ensures { result ≡ spec_announced e part }
{
    if e {
        match part {
            Part::External | Part::Declared => Some(Production::DeclaredP),
            _ => None,
        }
    } else {
        match part {
            Part::Inside => Some(Production::TypeInside),
            Part::ParamsEnd => Some(Production::Params),
            Part::MemberDecl => Some(Production::MemberP),
            Part::BlockItem | Part::SwitchPart | Part::ForFirst => Some(Production::Declaration),
            _ => None,
        }
    }
}

// What a declared name begins in an external.
fn core_ending(bare: bool, class: Class) -> Option<Production>
    ensures { result ≡ core_ending bare class }
{
    if bare {
        match class {
            Class::LParen => Some(Production::Function),
            _ => Some(Production::Objects),
        }
    } else {
        Some(Production::Objects)
    }
}

fn core_announced(bare: bool, part: Part, class: Class) -> Option<Production>
    ensures { result ≡ core_announced bare part class }
{
    match part {
        Part::ExternalRest => core_ending(bare, class),
        Part::DeclaredRest => core_ending(bare, class),
        _ => None,
    }
}

// What values so far begin.
fn values_announced(next: Production, part: Part, class: Class) -> Option<Production>
    ensures { result ≡ values_announced next part class }
{
    match part {
        Part::Value => match class {
            Class::RBrace => Some(Production::Braces),
            _ => Some(next),
        },
        _ => None,
    }
}

// Whether an `if` is followed by its `else`.
fn else_announced(part: Part, class: Class) -> Option<Production>
    ensures { result ≡ else_announced part class }
{
    match part {
        Part::Statement | Part::BlockItem | Part::SwitchPart => match class {
            Class::Else => Some(Production::IfElse),
            _ => None,
        },
        _ => None,
    }
}

/// The production that begins with what was read, where a part is wanted and a class follows; none: it is the part.
#[tactic(auto, unfolding(crate::specs::Machine::announced))]
pub fn announced(category: Category, part: Part, class: Class) -> Option<Production>
    ensures { result ≡ announced category part class }
{
    match category {
        Category::Level(k) => expr_announced(k, part, class),
        Category::BracketedType => cast_announced(part),
        Category::SpecC(e) => spec_announced(e, part),
        Category::CoreC(_, bare) => core_announced(bare, part, class),
        Category::ValuesC => values_announced(Production::ValueComma, part, class),
        Category::ValuesCommaC => values_announced(Production::NextValue, part, class),
        Category::IfC(_) => else_announced(part, class),
        _ => None,
    }
}
