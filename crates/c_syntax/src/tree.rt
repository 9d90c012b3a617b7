//! Trees of C: what a text says, without brackets, comments and blanks.

use crate::text::Text;

/// An operator on one side.
#[derive(Clone, Copy)]
pub enum UnOp {
    Address,
    Deref,
    Plus,
    Minus,
    Invert,
    Not,
}

/// A step of a place.
#[derive(Clone, Copy)]
pub enum StepOp {
    PreInc,
    PreDec,
    PostInc,
    PostDec,
}

/// An operator on two sides.
#[derive(Clone, Copy)]
pub enum BinOp {
    Or,
    And,
    BitOr,
    BitXor,
    BitAnd,
    Eq,
    Ne,
    Lt,
    Gt,
    Le,
    Ge,
    Shl,
    Shr,
    Add,
    Sub,
    Mul,
    Div,
    Mod,
}

/// An expression, with its place.
#[cycle(expr)]
pub struct Expr {
    pub pos: u32,
    pub form: Form,
}

impl Drop for Expr {
    #[cycle(drop_tree)]
    fn drop(self) {
        let Expr { pos: _, form } = self;
        drop(form);
    }
}

/// The expressions of a call.
#[cycle(expr)]
#[derive(Drop)]
pub struct Exprs {
    pub items: Vec<Expr>,
}

/// What an expression is.
#[cycle(expr)]
#[derive(Drop)]
pub enum Form {
    Number(u32, bool),
    Str(Text),
    Null,
    Name(Text),
    Unary(UnOp, Box<Expr>),
    Step(StepOp, Box<Expr>),
    Binary(BinOp, Box<Expr>, Box<Expr>),
    Assign(Option<BinOp>, Box<Expr>, Box<Expr>),
    Cond(Box<Expr>, Box<Expr>, Box<Expr>),
    Comma(Box<Expr>, Box<Expr>),
    Cast(Box<Ty>, Box<Expr>),
    SizeTy(Box<Ty>),
    SizeOf(Box<Expr>),
    Index(Box<Expr>, Box<Expr>),
    Call(Box<Expr>, Exprs),
    Member(Box<Expr>, Text),
    Arrow(Box<Expr>, Text),
}

/// A type.
#[cycle(expr)]
pub enum Ty {
    Void,
    Int,
    Unsigned,
    Char,
    UChar,
    Struct(Text),
    Pointer(Box<Ty>),
    Array(Box<Ty>, Option<Box<Expr>>),
    Func(Box<Ty>, Tys),
}

impl Drop for Ty {
    #[cycle(drop_tree)]
    fn drop(self) {
        match self {
            Ty::Void | Ty::Int | Ty::Unsigned | Ty::Char | Ty::UChar => {}
            Ty::Struct(tag) => drop(tag),
            Ty::Pointer(target) => drop(target),
            Ty::Array(element, length) => {
                drop(element);
                drop(length);
            }
            Ty::Func(result, params) => {
                drop(result);
                drop(params);
            }
        }
    }
}

/// Types.
#[cycle(expr)]
#[derive(Drop)]
pub struct Tys {
    pub items: Vec<Ty>,
}

/// A first value.
#[cycle(value)]
pub enum Value {
    One(Expr),
    Many(Values),
}

impl Drop for Value {
    #[cycle(drop_value)]
    fn drop(self) {
        match self {
            Value::One(e) => drop(e),
            Value::Many(values) => drop(values),
        }
    }
}

/// First values.
#[cycle(value)]
#[derive(Drop)]
pub struct Values {
    pub items: Vec<Value>,
}

/// A declaration.
#[derive(Drop)]
pub struct Decl {
    pub name: Text,
    pub pos: u32,
    pub ty: Ty,
    pub first: Option<Value>,
}

/// Declarations.
#[derive(Drop)]
pub struct Decls {
    pub items: Vec<Decl>,
}

/// A statement.
#[cycle(stmt)]
pub enum Stmt {
    Block(Stmts),
    Local(Decl),
    Expr(Expr),
    Empty,
    If(Expr, Box<Stmt>, Option<Box<Stmt>>),
    While(Expr, Box<Stmt>),
    Do(Box<Stmt>, Expr),
    For(Box<Stmt>, Option<Expr>, Option<Expr>, Box<Stmt>),
    Return(u32, Option<Expr>),
    Break(u32),
    Continue(u32),
    Switch(Expr, Parts),
}

impl Drop for Stmt {
    #[cycle(drop_statement)]
    fn drop(self) {
        match self {
            Stmt::Empty | Stmt::Break(_) | Stmt::Continue(_) => {}
            Stmt::Block(statements) => drop(statements),
            Stmt::Local(d) => drop(d),
            Stmt::Expr(e) => drop(e),
            Stmt::If(test, then, other) => {
                drop(test);
                drop(then);
                drop(other);
            }
            Stmt::While(test, body) => {
                drop(test);
                drop(body);
            }
            Stmt::Do(body, test) => {
                drop(body);
                drop(test);
            }
            Stmt::For(first, test, step, body) => {
                drop(first);
                drop(test);
                drop(step);
                drop(body);
            }
            Stmt::Return(_, value) => drop(value),
            Stmt::Switch(value, parts) => {
                drop(value);
                drop(parts);
            }
        }
    }
}

/// A part of a switch.
#[cycle(stmt)]
pub enum Part {
    Label(u32, Option<Expr>),
    Item(Stmt),
}

impl Drop for Part {
    #[cycle(drop_statement)]
    fn drop(self) {
        match self {
            Part::Label(_, value) => drop(value),
            Part::Item(statement) => drop(statement),
        }
    }
}

/// Parts.
#[cycle(stmt)]
#[derive(Drop)]
pub struct Parts {
    pub items: Vec<Part>,
}

/// Statements.
#[cycle(stmt)]
#[derive(Drop)]
pub struct Stmts {
    pub items: Vec<Stmt>,
}

/// A tag.
#[derive(Drop)]
pub struct Tag {
    pub name: Text,
    pub pos: u32,
    pub members: Decls,
}

/// An external.
pub enum Item {
    Struct(Tag),
    Object(Decl),
    Function {
        name: Text,
        pos: u32,
        result: Ty,
        params: Decls,
        body: Option<Stmt>,
    },
}

impl Drop for Item {
    fn drop(self) {
        match self {
            Item::Struct(tag) => drop(tag),
            Item::Object(d) => drop(d),
            Item::Function {
                name,
                pos: _,
                result,
                params,
                body,
            } => {
                drop(name);
                drop(result);
                drop(params);
                drop(body);
            }
        }
    }
}

/// Externals.
#[derive(Drop)]
pub struct Items {
    pub items: Vec<Item>,
}

/// A whole text.
#[derive(Drop)]
pub struct Unit {
    pub items: Items,
    pub end: u32,
}
