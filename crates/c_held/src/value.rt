//! What a parser holds of the parts that it has read.

use c_grammar::names::Category;
use c_syntax::Token;
use c_syntax::text::Text;
use c_syntax::tree::{self, Decl, Expr, Item, Stmt, Tag, Ty};
use std::collections::VecDeque;

/// What a declarator puts around a type.
#[derive(Drop)]
pub enum Layer {
    Pointer,
    Array(Option<Expr>),
    /// A pointer to a function with parameters of these types.
    FunctionPointer(Vec<Ty>),
}

/// A name that is declared, with what stands around its type, the outermost first.
#[derive(Drop)]
pub struct Declarator {
    pub name: Text,
    pub pos: u32,
    pub layers: Vec<Layer>,
    pub first: Option<tree::Value>,
}

/// What is declared of a type.
#[derive(Drop)]
pub enum Declared {
    Of(Declarator),
    /// The same of each type.
    Fixed(Decl),
}

/// The end of an external behind the words of its type.
pub enum Rest {
    Items(Vec<Item>),
    Function(Declared, Vec<Decl>, Option<Stmt>),
    Objects(Declared, Vec<Declared>),
}

impl Drop for Rest {
    fn drop(self) {
        match self {
            Rest::Items(items) => drop(items),
            Rest::Function(declared, params, body) => {
                drop(declared);
                drop(params);
                drop(body);
            }
            Rest::Objects(first, others) => {
                drop(first);
                drop(others);
            }
        }
    }
}

/// A type that words alone say.
#[derive(Drop)]
pub enum Base {
    Void,
    Int,
    Unsigned,
    Char,
    UChar,
    Struct(Text),
}

/// What a part stands for.
pub enum Meaning {
    Nothing,
    Word(Token),
    Expression(Expr),
    Expressions(Vec<Expr>),
    /// A type in brackets, and the place of the bracket.
    Bracketed(u32, Ty),
    /// The words of a type, the place of the first, whether they are `void` alone, and the struct that they declare.
    Words(Base, u32, bool, Option<Tag>),
    /// A type without a name.
    TypeName(Ty),
    Declares(Declared),
    Declarations(Vec<Decl>),
    Length(Option<Expr>),
    Initial(tree::Value),
    Initials(Vec<tree::Value>),
    Statement(Stmt),
    Label(tree::Part),
    /// A parameter's lengths, or a pointer to a function, without a name.
    Unnamed(Vec<Layer>),
    External(Rest),
}

impl Drop for Meaning {
    fn drop(self) {
        match self {
            Meaning::Nothing => {}
            Meaning::Word(token) => drop(token),
            Meaning::Expression(e) => drop(e),
            Meaning::Expressions(all) => drop(all),
            Meaning::Bracketed(_, ty) => drop(ty),
            Meaning::Words(base, _, _, tag) => {
                drop(base);
                drop(tag);
            }
            Meaning::TypeName(ty) => drop(ty),
            Meaning::Declares(declared) => drop(declared),
            Meaning::Declarations(all) => drop(all),
            Meaning::Length(length) => drop(length),
            Meaning::Initial(value) => drop(value),
            Meaning::Initials(all) => drop(all),
            Meaning::Statement(stmt) => drop(stmt),
            Meaning::Label(part) => drop(part),
            Meaning::Unnamed(layers) => drop(layers),
            Meaning::External(rest) => drop(rest),
        }
    }
}

/// What a parser asks of a part.
#[derive(Clone, Copy)]
pub struct Facts {
    pub category: Category,
    /// It ends in an `if` without `else`.
    pub ends_open: bool,
    /// Its operators outside brackets.
    pub operators: u32,
    /// The stars and opening square brackets that it adds to a declarator.
    pub stars: u32,
    /// It is a type behind an opening bracket.
    pub type_inside: bool,
}

/// A part that was read.
#[derive(Drop)]
pub struct Made {
    pub facts: Facts,
    pub meaning: Meaning,
}

/// What stands at a place of a production that is open.
#[derive(Drop)]
pub enum Value {
    Token(Token),
    Part(Made),
    Row(VecDeque<Made>),
}
