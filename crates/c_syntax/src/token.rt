//! Tokens of C.

ghost use Rattle.std.specs.Prelude.{◌≡◌};
ghost use Rattle.c_syntax.specs.declared.token.LexFault.TheVariants.{Memory};

use crate::text::Text;
use std::alloc::{AllocError, AllocFailed};

/// The keywords of C11.
#[derive(Clone, Copy, PartialEq, Eq)]
pub enum Key {
    Auto,
    Break,
    Case,
    Char,
    Const,
    Continue,
    Default,
    Do,
    Double,
    Else,
    Enum,
    Extern,
    Float,
    For,
    Goto,
    If,
    Inline,
    Int,
    Long,
    Register,
    Restrict,
    Return,
    Short,
    Signed,
    Sizeof,
    Static,
    Struct,
    Switch,
    Typedef,
    Union,
    Unsigned,
    Void,
    Volatile,
    While,
    Alignas,
    Alignof,
    Atomic,
    Bool,
    Complex,
    Generic,
    Imaginary,
    Noreturn,
    StaticAssert,
    ThreadLocal,
}

/// Brackets, marks between parts, and operators.
#[derive(Clone, Copy, PartialEq, Eq)]
pub enum Mark {
    LParen,
    RParen,
    LBracket,
    RBracket,
    LBrace,
    RBrace,
    Comma,
    Semi,
    Colon,
    Question,
    Dot,
    Arrow,
    Assign,
    PlusAssign,
    MinusAssign,
    StarAssign,
    SlashAssign,
    PercentAssign,
    AmpAssign,
    BarAssign,
    CaretAssign,
    ShlAssign,
    ShrAssign,
    OrOr,
    AndAnd,
    Bar,
    Caret,
    Amp,
    EqEq,
    NotEq,
    Less,
    Greater,
    LessEq,
    GreaterEq,
    Shl,
    Shr,
    Plus,
    Minus,
    Star,
    Slash,
    Percent,
    PlusPlus,
    MinusMinus,
    Tilde,
    Bang,
}

/// What a token is.
#[derive(Drop)]
pub enum Kind {
    Name(Text),
    /// A number or a character constant; `value` is at most 16,777,215.
    Number { value: u32, unsigned: bool },
    Str(Text),
    /// `NULL`, the null pointer constant.
    Null,
    Key(Key),
    Mark(Mark),
    /// The text's end.
    End,
}

/// A token, and the place of its first byte.
#[derive(Drop)]
pub struct Token {
    pub kind: Kind,
    pub pos: u32,
}

/// What a token is before directives are read.
#[derive(Drop)]
pub enum RawKind {
    Plain(Kind),
    /// `#`.
    Hash,
    /// A number above 16,777,215.
    Wide,
}

/// A token before directives are read, neighbouring strings join, and `NULL` and `EOF` are replaced, which are names here.
#[derive(Drop)]
pub struct Raw {
    pub kind: RawKind,
    pub pos: u32,
    /// Whether it is the first of its line.
    pub first: bool,
    /// Whether it follows the token before it at once.
    pub close: bool,
}

/// Why a text has no tokens, and the place.
#[derive(Clone, Copy, PartialEq, Eq, Debug)]
pub enum LexFault {
    /// A byte that starts no token or doesn't belong to one, an escape that is none, or a `#` whose line is no `#include` of a header.
    BadChar(u32),
    /// A comment, string or character constant that isn't closed.
    Unclosed(u32),
    /// A number above 16,777,215.
    NumberRange(u32),
    Memory,
}

impl From<AllocError> for LexFault {
    ghost from_gives = { λ _ e. e ≡ Memory };

    fn from(_e: AllocError) -> LexFault {
        LexFault::Memory
    }
}

impl<T: Drop> From<AllocFailed<T>> for LexFault {
    ghost from_gives = { λ _ e. e ≡ Memory };

    fn from(_e: AllocFailed<T>) -> LexFault {
        LexFault::Memory
    }
}
