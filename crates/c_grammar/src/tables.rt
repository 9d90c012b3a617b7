//! What the grammar says of classes, parts and productions, as functions.

ghost use Rattle.std.specs.Prelude.{◌≡◌, Some};
ghost use Rattle.c_grammar.specs.Class.{class_code, class_of, mark_class, key_class, level, is_atom, is_prefix, is_assignment, is_type_word, same_class};
ghost use Rattle.c_grammar.specs.Machine.{takes, or_else, on_class, piece_class, opening, expr_opening, spec_opening, statement_opening, label_opening, core_opening, rest_opening, tail_opening};

use crate::names::{Class, Part, Piece, Production, Terminal};
use c_syntax::{Key, Kind, Mark, Token};

// Whether it is an expression by itself.
fn is_atom(class: Class) -> bool
    ensures { result ≡ is_atom class }
{
    match class {
        Class::Name => true,
        Class::Number => true,
        Class::Str => true,
        Class::Null => true,
        _ => false,
    }
}

/// The level of a binary operator.
pub fn level(class: Class) -> Option<u32>
    ensures { result ≡ level class }
{
    match class {
        Class::OrOr => Some(3),
        Class::AndAnd => Some(4),
        Class::Bar => Some(5),
        Class::Caret => Some(6),
        Class::Amp => Some(7),
        Class::Equality => Some(8),
        Class::Relation => Some(9),
        Class::Shift => Some(10),
        Class::Sum => Some(11),
        Class::Star => Some(12),
        Class::Slash => Some(12),
        _ => None,
    }
}

// The production that begins with a token where an expression is wanted.
fn expr_opening(class: Class) -> Option<Production>
    ensures { result ≡ expr_opening class }
{
    match class {
        Class::Name | Class::Number | Class::Str | Class::Null => Some(Production::Atom),
        Class::LParen => Some(Production::Parens),
        Class::Amp | Class::Sum | Class::Star | Class::Tilde | Class::Step => {
            Some(Production::Prefix)
        }
        Class::Sizeof => Some(Production::SizeOf),
        _ => None,
    }
}

// The class of a keyword.
fn key_class(key: Key) -> Class
    ensures { result ≡ key_class key }
{
    match key {
        Key::Break => Class::Jump,
        Key::Case => Class::Case,
        Key::Char => Class::Basic,
        Key::Const => Class::Const,
        Key::Continue => Class::Jump,
        Key::Default => Class::Default,
        Key::Do => Class::Do,
        Key::Else => Class::Else,
        Key::For => Class::For,
        Key::If => Class::If,
        Key::Int => Class::Basic,
        Key::Return => Class::Return,
        Key::Signed => Class::Sign,
        Key::Sizeof => Class::Sizeof,
        Key::Static => Class::Static,
        Key::Struct => Class::Struct,
        Key::Switch => Class::Switch,
        Key::Unsigned => Class::Sign,
        Key::Void => Class::Void,
        Key::While => Class::While,
        _ => Class::Unused,
    }
}

// Whether an operator stands before its operand.
fn is_prefix(class: Class) -> bool
    ensures { result ≡ is_prefix class }
{
    match class {
        Class::Amp => true,
        Class::Sum => true,
        Class::Star => true,
        Class::Tilde => true,
        Class::Step => true,
        _ => false,
    }
}

// Whether it assigns.
fn is_assignment(class: Class) -> bool
    ensures { result ≡ is_assignment class }
{
    match class {
        Class::Equals => true,
        Class::Compound => true,
        _ => false,
    }
}

// Whether it is a type by itself.
fn is_type_word(class: Class) -> bool
    ensures { result ≡ is_type_word class }
{
    match class {
        Class::Void => true,
        Class::Basic => true,
        _ => false,
    }
}

// A number for each class.
fn class_code(class: Class) -> u32
    ensures { result ≡ class_code class }
{
    match class {
        Class::Name => 0,
        Class::Number => 1,
        Class::Str => 2,
        Class::Null => 3,
        Class::LParen => 4,
        Class::RParen => 5,
        Class::LBracket => 6,
        Class::RBracket => 7,
        Class::LBrace => 8,
        Class::RBrace => 9,
        Class::Comma => 10,
        Class::Semi => 11,
        Class::Colon => 12,
        Class::Question => 13,
        Class::Dot => 14,
        Class::Equals => 15,
        Class::Compound => 16,
        Class::OrOr => 17,
        Class::AndAnd => 18,
        Class::Bar => 19,
        Class::Caret => 20,
        Class::Equality => 21,
        Class::Relation => 22,
        Class::Shift => 23,
        Class::Slash => 24,
        Class::Amp => 25,
        Class::Sum => 26,
        Class::Star => 27,
        Class::Tilde => 28,
        Class::Step => 29,
        Class::Sizeof => 30,
        Class::Const => 31,
        Class::Static => 32,
        Class::Struct => 33,
        Class::Void => 34,
        Class::Basic => 35,
        Class::Sign => 36,
        Class::If => 37,
        Class::Else => 38,
        Class::While => 39,
        Class::Do => 40,
        Class::For => 41,
        Class::Switch => 42,
        Class::Case => 43,
        Class::Default => 44,
        Class::Return => 45,
        Class::Jump => 46,
        Class::End => 47,
        Class::Unused => 48,
    }
}

// The production that begins with a token where the words of a type are wanted.
fn spec_opening(e: bool, class: Class) -> Option<Production>
    ensures { result ≡ spec_opening e class }
{
    match class {
        Class::Const => Some(Production::ConstSpec(e)),
        Class::Void => Some(Production::WordSpec(e)),
        Class::Basic => Some(Production::WordSpec(e)),
        Class::Sign => Some(Production::SignSpec(e)),
        Class::Struct => Some(Production::StructSpec(e)),
        _ => None,
    }
}

// Where a statement is wanted.
fn statement_opening(class: Class) -> Option<Production>
    ensures { result ≡ statement_opening class }
{
    match class {
        Class::LBrace => Some(Production::Block),
        Class::Semi => Some(Production::Empty),
        Class::If => Some(Production::If),
        Class::While => Some(Production::While),
        Class::Do => Some(Production::Do),
        Class::For => Some(Production::For),
        Class::Switch => Some(Production::Switch),
        Class::Return => Some(Production::Return),
        Class::Jump => Some(Production::Jump),
        _ => expr_opening(class),
    }
}

// Where a label is wanted.
fn label_opening(class: Class) -> Option<Production>
    ensures { result ≡ label_opening class }
{
    match class {
        Class::Case => Some(Production::CaseLabel),
        Class::Default => Some(Production::DefaultLabel),
        _ => None,
    }
}

// Where a declared name is wanted.
fn core_opening(o: bool, class: Class) -> Option<Production>
    ensures { result ≡ core_opening o class }
{
    match class {
        Class::Name => Some(Production::NameCore(o)),
        Class::LParen => Some(Production::FunctionCore(o)),
        _ => None,
    }
}

// Where the rest of an external is wanted.
fn rest_opening(class: Class) -> Option<Production>
    ensures { result ≡ rest_opening class }
{
    match class {
        Class::Star => Some(Production::Pointed),
        _ => core_opening(true, class),
    }
}

// Where the rest of a parameter is wanted.
fn tail_opening(class: Class) -> Option<Production>
    ensures { result ≡ tail_opening class }
{
    match class {
        Class::Name => Some(Production::ParamName),
        Class::LBracket => Some(Production::PieceP(Piece::ParamLengths)),
        Class::LParen => Some(Production::ParamFunction),
        _ => None,
    }
}

// The class of a mark.
fn mark_class(mark: Mark) -> Class
    ensures { result ≡ mark_class mark }
{
    match mark {
        Mark::LParen => Class::LParen,
        Mark::RParen => Class::RParen,
        Mark::LBracket => Class::LBracket,
        Mark::RBracket => Class::RBracket,
        Mark::LBrace => Class::LBrace,
        Mark::RBrace => Class::RBrace,
        Mark::Comma => Class::Comma,
        Mark::Semi => Class::Semi,
        Mark::Colon => Class::Colon,
        Mark::Question => Class::Question,
        Mark::Dot => Class::Dot,
        Mark::Arrow => Class::Dot,
        Mark::Assign => Class::Equals,
        Mark::PlusAssign => Class::Compound,
        Mark::MinusAssign => Class::Compound,
        Mark::StarAssign => Class::Compound,
        Mark::SlashAssign => Class::Compound,
        Mark::PercentAssign => Class::Compound,
        Mark::AmpAssign => Class::Compound,
        Mark::BarAssign => Class::Compound,
        Mark::CaretAssign => Class::Compound,
        Mark::ShlAssign => Class::Compound,
        Mark::ShrAssign => Class::Compound,
        Mark::OrOr => Class::OrOr,
        Mark::AndAnd => Class::AndAnd,
        Mark::Bar => Class::Bar,
        Mark::Caret => Class::Caret,
        Mark::Amp => Class::Amp,
        Mark::EqEq => Class::Equality,
        Mark::NotEq => Class::Equality,
        Mark::Less => Class::Relation,
        Mark::Greater => Class::Relation,
        Mark::LessEq => Class::Relation,
        Mark::GreaterEq => Class::Relation,
        Mark::Shl => Class::Shift,
        Mark::Shr => Class::Shift,
        Mark::Plus => Class::Sum,
        Mark::Minus => Class::Sum,
        Mark::Star => Class::Star,
        Mark::Slash => Class::Slash,
        Mark::Percent => Class::Slash,
        Mark::PlusPlus => Class::Step,
        Mark::MinusMinus => Class::Step,
        Mark::Tilde => Class::Tilde,
        Mark::Bang => Class::Tilde,
    }
}

/// The class of a token.
#[tactic(auto, unfolding(crate::specs::Class::class_of))]
pub fn class_of(token: &Token) -> Class
    ensures { result ≡ class_of token.now }
{
    match &token.kind {
        Kind::Name(_) => Class::Name,
        Kind::Number { .. } => Class::Number,
        Kind::Str(_) => Class::Str,
        Kind::Null => Class::Null,
        Kind::Key(key) => key_class(*key),
        Kind::Mark(mark) => mark_class(*mark),
        Kind::End => Class::End,
    }
}

// Whether two classes are the same.
#[tactic(auto, unfolding(crate::specs::Class::same_class))]
fn same_class(a: Class, b: Class) -> bool
    ensures { result ≡ same_class a b }
{
    class_code(a) == class_code(b)
}

/// The one that is there.
pub fn or_else(a: Option<Production>, b: Option<Production>) -> Option<Production>
    ensures { result ≡ or_else a b }
{
    match a {
        Some(p) => Some(p),
        None => b,
    }
}

// A production that begins with one class alone.
fn on_class(d: Class, p: Production, class: Class) -> Option<Production>
    ensures { result ≡ on_class d p class }
{
    if same_class(class, d) { Some(p) } else { None }
}

/// Whether a token's class fits a place.
pub fn takes(terminal: Terminal, class: Class) -> bool
    ensures { result ≡ takes terminal class }
{
    match terminal {
        Terminal::Exactly(d) => same_class(class, d),
        Terminal::Operator(n) => match level(class) {
            Some(m) => m == n,
            None => false,
        },
        Terminal::PrefixOperator => is_prefix(class),
        Terminal::Atomic => is_atom(class),
        Terminal::Assigning => is_assignment(class),
        Terminal::TypeWord => is_type_word(class),
    }
}

// The class with which a piece begins.
fn piece_class(piece: Piece) -> Class
    ensures { result ≡ piece_class piece }
{
    match piece {
        Piece::NextArgument => Class::Comma,
        Piece::FunctionPart => Class::LParen,
        Piece::Pointer => Class::Star,
        Piece::Qualifier => Class::Const,
        Piece::SecondWord => Class::Basic,
        Piece::Members => Class::LBrace,
        Piece::NextMember => Class::Comma,
        Piece::AnyLength => Class::LBracket,
        Piece::FullLength => Class::LBracket,
        Piece::NextParam => Class::Comma,
        Piece::ParamLengths => Class::LBracket,
        Piece::NamePart => Class::Name,
        Piece::Initial => Class::Equals,
        Piece::NextInit => Class::Comma,
    }
}

/// The production that begins with a token where a part is wanted.
#[tactic(auto, unfolding(crate::specs::Machine::opening))]
pub fn opening(part: Part, class: Class) -> Option<Production>
    ensures { result ≡ opening part class }
{
    match part {
        Part::Expr(_) => expr_opening(class),
        Part::Only(k) => on_class(piece_class(k), Production::PieceP(k), class),
        Part::IfHead => None,
        Part::Inside => or_else(spec_opening(false, class), expr_opening(class)),
        Part::CallEnd => or_else(
            on_class(Class::RParen, Production::NoArguments, class),
            expr_opening(class),
        ),
        Part::ParamsEnd => or_else(
            on_class(Class::RParen, Production::NoParams, class),
            spec_opening(false, class),
        ),
        Part::CastHead => None,
        Part::Spec(e) => spec_opening(e, class),
        Part::Core(o) => core_opening(o, class),
        Part::BareName => None,
        Part::ParamTail => tail_opening(class),
        Part::MemberDecl => spec_opening(false, class),
        Part::Value => or_else(
            on_class(Class::LBrace, Production::FirstValue, class),
            expr_opening(class),
        ),
        Part::Values => None,
        Part::ValuesComma => None,
        Part::ValuesEnd => None,
        Part::Statement => statement_opening(class),
        Part::BlockItem => or_else(spec_opening(false, class), statement_opening(class)),
        Part::SwitchPart => or_else(
            label_opening(class),
            or_else(spec_opening(false, class), statement_opening(class)),
        ),
        Part::ForFirst => or_else(
            on_class(Class::Semi, Production::Empty, class),
            or_else(spec_opening(false, class), expr_opening(class)),
        ),
        Part::FunctionEnd => or_else(
            on_class(Class::Semi, Production::Empty, class),
            on_class(Class::LBrace, Production::Block, class),
        ),
        Part::External => or_else(
            on_class(Class::Static, Production::StaticExternal, class),
            spec_opening(true, class),
        ),
        Part::Declared => spec_opening(true, class),
        Part::ExternalRest => or_else(
            on_class(Class::Semi, Production::Empty, class),
            rest_opening(class),
        ),
        Part::DeclaredRest => rest_opening(class),
    }
}
