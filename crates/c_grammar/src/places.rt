//! What stands at the places of each production.

ghost use Rattle.std.specs.Prelude.{◌≡◌, slice_get};
ghost use Rattle.c_grammar.specs.Grammar.{length, function_core, piece_rhs, rhs, HasRoom};

use crate::names::{Class, Part, Piece, Production, Symbol, Terminal};

// The symbol at an index.
fn pick(symbols: &[Symbol], index: usize) -> Option<Symbol>
    ensures { result ≡ slice_get symbols.now index }
{
    symbols.get(index).copied()
}

// What stands in square brackets behind a declared name.
fn length(o: bool) -> Part
    ensures { result ≡ length o }
{
    if o {
        Part::Only(Piece::AnyLength)
    } else {
        Part::Only(Piece::FullLength)
    }
}

// What stands at a place of a pointer to a function that is declared.
fn function_place(length: Part, index: usize) -> Option<Symbol>
    ensures { result ≡ slice_get (function_core length) index }
{
    pick(
        &[
            Symbol::Tok(Terminal::Exactly(Class::LParen)),
            Symbol::One(Part::Only(Piece::Pointer)),
            Symbol::Tok(Terminal::Exactly(Class::Name)),
            Symbol::Many(length),
            Symbol::Tok(Terminal::Exactly(Class::RParen)),
            Symbol::Tok(Terminal::Exactly(Class::LParen)),
            Symbol::One(Part::ParamsEnd),
        ],
        index,
    )
}

// What stands at a place of a piece.
fn piece_place(piece: Piece, index: usize) -> Option<Symbol>
    ensures { result ≡ slice_get (piece_rhs piece) index }
{
    match piece {
        Piece::NextArgument => pick(
            &[
                Symbol::Tok(Terminal::Exactly(Class::Comma)),
                Symbol::One(Part::Expr(1)),
            ],
            index,
        ),
        Piece::FunctionPart => pick(
            &[
                Symbol::Tok(Terminal::Exactly(Class::LParen)),
                Symbol::One(Part::Only(Piece::Pointer)),
                Symbol::Tok(Terminal::Exactly(Class::RParen)),
                Symbol::Tok(Terminal::Exactly(Class::LParen)),
                Symbol::One(Part::ParamsEnd),
            ],
            index,
        ),
        Piece::Pointer => pick(
            &[
                Symbol::Tok(Terminal::Exactly(Class::Star)),
                Symbol::Maybe(Part::Only(Piece::Qualifier)),
            ],
            index,
        ),
        Piece::Qualifier => pick(&[Symbol::Tok(Terminal::Exactly(Class::Const))], index),
        Piece::SecondWord => pick(
            &[
                Symbol::Tok(Terminal::Exactly(Class::Basic)),
                Symbol::Many(Part::Only(Piece::Qualifier)),
            ],
            index,
        ),
        Piece::Members => pick(
            &[
                Symbol::Tok(Terminal::Exactly(Class::LBrace)),
                Symbol::Many(Part::MemberDecl),
                Symbol::Tok(Terminal::Exactly(Class::RBrace)),
            ],
            index,
        ),
        Piece::NextMember => pick(
            &[
                Symbol::Tok(Terminal::Exactly(Class::Comma)),
                Symbol::Many(Part::Only(Piece::Pointer)),
                Symbol::One(Part::Core(false)),
            ],
            index,
        ),
        Piece::AnyLength => pick(
            &[
                Symbol::Tok(Terminal::Exactly(Class::LBracket)),
                Symbol::Maybe(Part::Expr(1)),
                Symbol::Tok(Terminal::Exactly(Class::RBracket)),
            ],
            index,
        ),
        Piece::FullLength => pick(
            &[
                Symbol::Tok(Terminal::Exactly(Class::LBracket)),
                Symbol::One(Part::Expr(1)),
                Symbol::Tok(Terminal::Exactly(Class::RBracket)),
            ],
            index,
        ),
        Piece::NextParam => pick(
            &[
                Symbol::Tok(Terminal::Exactly(Class::Comma)),
                Symbol::One(Part::Spec(false)),
                Symbol::Many(Part::Only(Piece::Pointer)),
                Symbol::Maybe(Part::ParamTail),
            ],
            index,
        ),
        Piece::ParamLengths => pick(
            &[
                Symbol::Tok(Terminal::Exactly(Class::LBracket)),
                Symbol::Maybe(Part::Expr(1)),
                Symbol::Tok(Terminal::Exactly(Class::RBracket)),
                Symbol::Many(Part::Only(Piece::FullLength)),
            ],
            index,
        ),
        Piece::NamePart => pick(&[Symbol::Tok(Terminal::Exactly(Class::Name))], index),
        Piece::Initial => pick(
            &[
                Symbol::Tok(Terminal::Exactly(Class::Equals)),
                Symbol::One(Part::Value),
            ],
            index,
        ),
        Piece::NextInit => pick(
            &[
                Symbol::Tok(Terminal::Exactly(Class::Comma)),
                Symbol::Many(Part::Only(Piece::Pointer)),
                Symbol::One(Part::Core(true)),
                Symbol::Maybe(Part::Only(Piece::Initial)),
            ],
            index,
        ),
    }
}

/// What stands at a place of a production; none: it has fewer places.
#[tactic(auto, unfolding(crate::specs::Grammar::rhs))]
pub fn place(production: Production, index: usize) -> Option<Symbol>
    requires { HasRoom production }
    ensures { result ≡ slice_get (rhs production) index }
{
    match production {
        Production::Atom => pick(&[Symbol::Tok(Terminal::Atomic)], index),
        Production::Parens => pick(
            &[
                Symbol::Tok(Terminal::Exactly(Class::LParen)),
                Symbol::One(Part::Inside),
            ],
            index,
        ),
        Production::ExprInside => pick(
            &[
                Symbol::One(Part::Expr(0)),
                Symbol::Tok(Terminal::Exactly(Class::RParen)),
            ],
            index,
        ),
        Production::TypeInside => pick(
            &[
                Symbol::One(Part::Spec(false)),
                Symbol::Many(Part::Only(Piece::Pointer)),
                Symbol::Maybe(Part::Only(Piece::FunctionPart)),
                Symbol::Tok(Terminal::Exactly(Class::RParen)),
            ],
            index,
        ),
        Production::Prefix => pick(
            &[
                Symbol::Tok(Terminal::PrefixOperator),
                Symbol::One(Part::Expr(13)),
            ],
            index,
        ),
        Production::SizeOf => pick(
            &[
                Symbol::Tok(Terminal::Exactly(Class::Sizeof)),
                Symbol::One(Part::Expr(14)),
            ],
            index,
        ),
        Production::Suffix => pick(
            &[
                Symbol::One(Part::Expr(15)),
                Symbol::Tok(Terminal::Exactly(Class::Step)),
            ],
            index,
        ),
        Production::Member => pick(
            &[
                Symbol::One(Part::Expr(15)),
                Symbol::Tok(Terminal::Exactly(Class::Dot)),
                Symbol::Tok(Terminal::Exactly(Class::Name)),
            ],
            index,
        ),
        Production::Index => pick(
            &[
                Symbol::One(Part::Expr(15)),
                Symbol::Tok(Terminal::Exactly(Class::LBracket)),
                Symbol::One(Part::Expr(0)),
                Symbol::Tok(Terminal::Exactly(Class::RBracket)),
            ],
            index,
        ),
        Production::Call => pick(
            &[
                Symbol::One(Part::Expr(15)),
                Symbol::Tok(Terminal::Exactly(Class::LParen)),
                Symbol::One(Part::CallEnd),
            ],
            index,
        ),
        Production::NoArguments => pick(&[Symbol::Tok(Terminal::Exactly(Class::RParen))], index),
        Production::Arguments => pick(
            &[
                Symbol::One(Part::Expr(1)),
                Symbol::Many(Part::Only(Piece::NextArgument)),
                Symbol::Tok(Terminal::Exactly(Class::RParen)),
            ],
            index,
        ),
        Production::Binary(n) => pick(
            &[
                Symbol::One(Part::Expr(n)),
                Symbol::Tok(Terminal::Operator(n)),
                Symbol::One(Part::Expr(n + 1)),
            ],
            index,
        ),
        Production::Assign => pick(
            &[
                Symbol::One(Part::Expr(2)),
                Symbol::Tok(Terminal::Assigning),
                Symbol::One(Part::Expr(1)),
            ],
            index,
        ),
        Production::Cond => pick(
            &[
                Symbol::One(Part::Expr(3)),
                Symbol::Tok(Terminal::Exactly(Class::Question)),
                Symbol::One(Part::Expr(0)),
                Symbol::Tok(Terminal::Exactly(Class::Colon)),
                Symbol::One(Part::Expr(2)),
            ],
            index,
        ),
        Production::CommaExpr => pick(
            &[
                Symbol::One(Part::Expr(0)),
                Symbol::Tok(Terminal::Exactly(Class::Comma)),
                Symbol::One(Part::Expr(1)),
            ],
            index,
        ),
        Production::Cast => pick(
            &[Symbol::One(Part::CastHead), Symbol::One(Part::Expr(13))],
            index,
        ),
        Production::PieceP(k) => piece_place(k, index),
        Production::ConstSpec(external) => pick(
            &[
                Symbol::Tok(Terminal::Exactly(Class::Const)),
                Symbol::One(Part::Spec(external)),
            ],
            index,
        ),
        Production::WordSpec(external) => pick(
            &[
                Symbol::Tok(Terminal::TypeWord),
                Symbol::Many(Part::Only(Piece::Qualifier)),
            ],
            index,
        ),
        Production::SignSpec(external) => pick(
            &[
                Symbol::Tok(Terminal::Exactly(Class::Sign)),
                Symbol::Many(Part::Only(Piece::Qualifier)),
                Symbol::Maybe(Part::Only(Piece::SecondWord)),
            ],
            index,
        ),
        Production::StructSpec(false) => pick(
            &[
                Symbol::Tok(Terminal::Exactly(Class::Struct)),
                Symbol::Tok(Terminal::Exactly(Class::Name)),
                Symbol::Many(Part::Only(Piece::Qualifier)),
            ],
            index,
        ),
        Production::StructSpec(true) => pick(
            &[
                Symbol::Tok(Terminal::Exactly(Class::Struct)),
                Symbol::Tok(Terminal::Exactly(Class::Name)),
                Symbol::Maybe(Part::Only(Piece::Members)),
                Symbol::Many(Part::Only(Piece::Qualifier)),
            ],
            index,
        ),
        Production::MemberP => pick(
            &[
                Symbol::One(Part::Spec(false)),
                Symbol::Many(Part::Only(Piece::Pointer)),
                Symbol::One(Part::Core(false)),
                Symbol::Many(Part::Only(Piece::NextMember)),
                Symbol::Tok(Terminal::Exactly(Class::Semi)),
            ],
            index,
        ),
        Production::NameCore(true) => pick(
            &[
                Symbol::Tok(Terminal::Exactly(Class::Name)),
                Symbol::Many(Part::Only(Piece::AnyLength)),
            ],
            index,
        ),
        Production::NameCore(false) => pick(
            &[
                Symbol::Tok(Terminal::Exactly(Class::Name)),
                Symbol::Many(Part::Only(Piece::FullLength)),
            ],
            index,
        ),
        Production::FunctionCore(o) => function_place(length(o), index),
        Production::NoParams => pick(&[Symbol::Tok(Terminal::Exactly(Class::RParen))], index),
        Production::Params => pick(
            &[
                Symbol::One(Part::Spec(false)),
                Symbol::Many(Part::Only(Piece::Pointer)),
                Symbol::Maybe(Part::ParamTail),
                Symbol::Many(Part::Only(Piece::NextParam)),
                Symbol::Tok(Terminal::Exactly(Class::RParen)),
            ],
            index,
        ),
        Production::ParamName => pick(
            &[
                Symbol::Tok(Terminal::Exactly(Class::Name)),
                Symbol::Maybe(Part::Only(Piece::ParamLengths)),
            ],
            index,
        ),
        Production::ParamFunction => pick(
            &[
                Symbol::Tok(Terminal::Exactly(Class::LParen)),
                Symbol::One(Part::Only(Piece::Pointer)),
                Symbol::Maybe(Part::Only(Piece::NamePart)),
                Symbol::Maybe(Part::Only(Piece::AnyLength)),
                Symbol::Tok(Terminal::Exactly(Class::RParen)),
                Symbol::Tok(Terminal::Exactly(Class::LParen)),
                Symbol::One(Part::ParamsEnd),
            ],
            index,
        ),
        Production::Declaration => pick(
            &[
                Symbol::One(Part::Spec(false)),
                Symbol::Many(Part::Only(Piece::Pointer)),
                Symbol::One(Part::Core(true)),
                Symbol::Maybe(Part::Only(Piece::Initial)),
                Symbol::Many(Part::Only(Piece::NextInit)),
                Symbol::Tok(Terminal::Exactly(Class::Semi)),
            ],
            index,
        ),
        Production::FirstValue => pick(
            &[
                Symbol::Tok(Terminal::Exactly(Class::LBrace)),
                Symbol::One(Part::Value),
            ],
            index,
        ),
        Production::ValueComma => pick(
            &[
                Symbol::One(Part::Values),
                Symbol::Tok(Terminal::Exactly(Class::Comma)),
            ],
            index,
        ),
        Production::NextValue => pick(
            &[Symbol::One(Part::ValuesComma), Symbol::One(Part::Value)],
            index,
        ),
        Production::Braces => pick(
            &[
                Symbol::One(Part::ValuesEnd),
                Symbol::Tok(Terminal::Exactly(Class::RBrace)),
            ],
            index,
        ),
        Production::Block => pick(
            &[
                Symbol::Tok(Terminal::Exactly(Class::LBrace)),
                Symbol::Many(Part::BlockItem),
                Symbol::Tok(Terminal::Exactly(Class::RBrace)),
            ],
            index,
        ),
        Production::Empty => pick(&[Symbol::Tok(Terminal::Exactly(Class::Semi))], index),
        Production::ExprStatement => pick(
            &[
                Symbol::One(Part::Expr(0)),
                Symbol::Tok(Terminal::Exactly(Class::Semi)),
            ],
            index,
        ),
        Production::If => pick(
            &[
                Symbol::Tok(Terminal::Exactly(Class::If)),
                Symbol::Tok(Terminal::Exactly(Class::LParen)),
                Symbol::One(Part::Expr(0)),
                Symbol::Tok(Terminal::Exactly(Class::RParen)),
                Symbol::One(Part::Statement),
            ],
            index,
        ),
        Production::IfElse => pick(
            &[
                Symbol::One(Part::IfHead),
                Symbol::Tok(Terminal::Exactly(Class::Else)),
                Symbol::One(Part::Statement),
            ],
            index,
        ),
        Production::While => pick(
            &[
                Symbol::Tok(Terminal::Exactly(Class::While)),
                Symbol::Tok(Terminal::Exactly(Class::LParen)),
                Symbol::One(Part::Expr(0)),
                Symbol::Tok(Terminal::Exactly(Class::RParen)),
                Symbol::One(Part::Statement),
            ],
            index,
        ),
        Production::Do => pick(
            &[
                Symbol::Tok(Terminal::Exactly(Class::Do)),
                Symbol::One(Part::Statement),
                Symbol::Tok(Terminal::Exactly(Class::While)),
                Symbol::Tok(Terminal::Exactly(Class::LParen)),
                Symbol::One(Part::Expr(0)),
                Symbol::Tok(Terminal::Exactly(Class::RParen)),
                Symbol::Tok(Terminal::Exactly(Class::Semi)),
            ],
            index,
        ),
        Production::For => pick(
            &[
                Symbol::Tok(Terminal::Exactly(Class::For)),
                Symbol::Tok(Terminal::Exactly(Class::LParen)),
                Symbol::One(Part::ForFirst),
                Symbol::Maybe(Part::Expr(0)),
                Symbol::Tok(Terminal::Exactly(Class::Semi)),
                Symbol::Maybe(Part::Expr(0)),
                Symbol::Tok(Terminal::Exactly(Class::RParen)),
                Symbol::One(Part::Statement),
            ],
            index,
        ),
        Production::Switch => pick(
            &[
                Symbol::Tok(Terminal::Exactly(Class::Switch)),
                Symbol::Tok(Terminal::Exactly(Class::LParen)),
                Symbol::One(Part::Expr(0)),
                Symbol::Tok(Terminal::Exactly(Class::RParen)),
                Symbol::Tok(Terminal::Exactly(Class::LBrace)),
                Symbol::Many(Part::SwitchPart),
                Symbol::Tok(Terminal::Exactly(Class::RBrace)),
            ],
            index,
        ),
        Production::Return => pick(
            &[
                Symbol::Tok(Terminal::Exactly(Class::Return)),
                Symbol::Maybe(Part::Expr(0)),
                Symbol::Tok(Terminal::Exactly(Class::Semi)),
            ],
            index,
        ),
        Production::Jump => pick(
            &[
                Symbol::Tok(Terminal::Exactly(Class::Jump)),
                Symbol::Tok(Terminal::Exactly(Class::Semi)),
            ],
            index,
        ),
        Production::CaseLabel => pick(
            &[
                Symbol::Tok(Terminal::Exactly(Class::Case)),
                Symbol::One(Part::Expr(2)),
                Symbol::Tok(Terminal::Exactly(Class::Colon)),
            ],
            index,
        ),
        Production::DefaultLabel => pick(
            &[
                Symbol::Tok(Terminal::Exactly(Class::Default)),
                Symbol::Tok(Terminal::Exactly(Class::Colon)),
            ],
            index,
        ),
        Production::Whole => pick(
            &[
                Symbol::Many(Part::External),
                Symbol::Tok(Terminal::Exactly(Class::End)),
            ],
            index,
        ),
        Production::StaticExternal => pick(
            &[
                Symbol::Tok(Terminal::Exactly(Class::Static)),
                Symbol::One(Part::Declared),
            ],
            index,
        ),
        Production::DeclaredP => pick(
            &[
                Symbol::One(Part::Spec(true)),
                Symbol::One(Part::ExternalRest),
            ],
            index,
        ),
        Production::Pointed => pick(
            &[
                Symbol::Tok(Terminal::Exactly(Class::Star)),
                Symbol::Maybe(Part::Only(Piece::Qualifier)),
                Symbol::One(Part::DeclaredRest),
            ],
            index,
        ),
        Production::Function => pick(
            &[
                Symbol::One(Part::BareName),
                Symbol::Tok(Terminal::Exactly(Class::LParen)),
                Symbol::One(Part::ParamsEnd),
                Symbol::One(Part::FunctionEnd),
            ],
            index,
        ),
        Production::Objects => pick(
            &[
                Symbol::One(Part::Core(true)),
                Symbol::Maybe(Part::Only(Piece::Initial)),
                Symbol::Many(Part::Only(Piece::NextInit)),
                Symbol::Tok(Terminal::Exactly(Class::Semi)),
            ],
            index,
        ),
    }
}
