//! Expressions.

ghost use Rattle.std.specs.Prelude.{◌≡◌, map, IfOk, ℕ};
ghost use Rattle.c_syntax.specs.Plain as plain;
ghost use Rattle.c_syntax.specs.Plain.{exprs};
ghost use Rattle.c_syntax.specs.View.{expr_of, form_of, ty_of};
ghost use Rattle.c_grammar.specs.Tree as grammar;
ghost use Rattle.c_grammar.specs.Tree.{Meanings, more, none, act};
ghost use Rattle.c_grammar.specs.declared.names.Production.TheVariants as production;
ghost use Rattle.c_held.specs.View.{meaning_of, means};

use c_held::parts::{
    expression, expressions, mark, no_text, null, place, take_expression, text, token,
};
use c_held::value::{Meaning, Value};
use c_held_rows::rows::push_expressions;
use c_held_rows::types::{take_type, type_of};
use c_syntax::tree::{BinOp, Expr, Exprs, Form, StepOp, Ty, UnOp};
use c_syntax::{Kind, Mark, Token};
use std::alloc::{AllocError, Global};
use std::mem;

/// What an expression of one token is, taken out of the token's kind; null where the kind is none.
fn take_atom(alloc: Global, kind: &mut Kind) -> Form
    ensures { (pos : ℕ) → form_of result pos ≡ grammar.atom_of kind.old pos }
{
    match kind {
        Kind::Number { value, unsigned } => Form::Number(*value, *unsigned),
        Kind::Str(text) => Form::Str(mem::replace(text, no_text(alloc))),
        Kind::Name(text) => Form::Name(mem::replace(text, no_text(alloc))),
        _ => Form::Null,
    }
}

/// The expression that one token is, at its place.
fn atom_of(alloc: Global, mut token: Token) -> Expr
    ensures { expr_of result ≡ grammar.atom_of token.kind token.pos }
{
    Expr {
        pos: token.pos,
        form: take_atom(alloc, &mut token.kind),
    }
}

/// An expression of one token.
#[tactic(auto, unfolding(c_grammar::specs::Tree::act))]
pub fn atom(alloc: Global, w: &mut Value) -> Meaning
    ensures { meaning_of result ≡ act production.Atom (more (means w.old) none) }
{
    Meaning::Expression(atom_of(alloc, token(w)))
}

/// What stands behind an opening bracket at a place: the expression itself, or the bracketed type. An `Err` is want of memory.
fn bracketed_in(alloc: Global, pos: u32, part: &mut Meaning) -> Result<Meaning, AllocError>
    ensures { IfOk result (λ m. meaning_of m ≡ grammar.bracketed pos (meaning_of part.old)) }
{
    match part {
        Meaning::Expression(expr) => Ok(Meaning::Expression(mem::replace(expr, null()))),
        other => Ok(Meaning::Bracketed(pos, take_type(alloc, other)?)),
    }
}

/// What stands in brackets: an expression, or a type with the place of the bracket.
#[tactic(auto, unfolding(c_grammar::specs::Tree::act))]
pub fn parens(alloc: Global, o: &Value, inside: &mut Value) -> Result<Meaning, AllocError>
    ensures { IfOk result (λ m. meaning_of m ≡ act production.Parens (more (means o.now) (more (means inside.old) none))) }
{
    let pos = place(o);
    match inside {
        Value::Part(made) => bracketed_in(alloc, pos, &mut made.meaning),
        _ => Ok(Meaning::Bracketed(pos, Ty::Void)),
    }
}

/// An operator on one operand, at a place. An `Err` is want of memory.
fn unary(alloc: Global, pos: u32, op: UnOp, a: Expr) -> Result<Expr, AllocError>
    ensures { IfOk result (λ x. expr_of x ≡ plain.Unary pos op (expr_of a)) }
{
    Ok(Expr {
        pos,
        form: Form::Unary(op, Box::new(alloc, a)?),
    })
}

/// A step of a place in memory, at a place of the text. An `Err` is want of memory.
fn stepped(alloc: Global, pos: u32, op: StepOp, a: Expr) -> Result<Expr, AllocError>
    ensures { IfOk result (λ x. expr_of x ≡ plain.Step pos op (expr_of a)) }
{
    Ok(Expr {
        pos,
        form: Form::Step(op, Box::new(alloc, a)?),
    })
}

/// An operand with the operator or step that a mark before it says; itself where the mark says none. An `Err` is want of memory.
fn prefixed(alloc: Global, mark: Mark, pos: u32, a: Expr) -> Result<Expr, AllocError>
    ensures { IfOk result (λ x. expr_of x ≡ grammar.prefix_mark mark pos (expr_of a)) }
{
    match mark {
        Mark::Amp => unary(alloc, pos, UnOp::Address, a),
        Mark::Star => unary(alloc, pos, UnOp::Deref, a),
        Mark::Plus => unary(alloc, pos, UnOp::Plus, a),
        Mark::Minus => unary(alloc, pos, UnOp::Minus, a),
        Mark::Tilde => unary(alloc, pos, UnOp::Invert, a),
        Mark::Bang => unary(alloc, pos, UnOp::Not, a),
        Mark::PlusPlus => stepped(alloc, pos, StepOp::PreInc, a),
        Mark::MinusMinus => stepped(alloc, pos, StepOp::PreDec, a),
        _ => Ok(a),
    }
}

/// An operator before its operand.
#[tactic(auto, unfolding(c_grammar::specs::Tree::act))]
pub fn prefix(alloc: Global, w: &mut Value, a: &mut Value) -> Result<Meaning, AllocError>
    ensures { IfOk result (λ m. meaning_of m ≡ act production.Prefix (more (means w.old) (more (means a.old) none))) }
{
    let w = token(w);
    Ok(Meaning::Expression(prefixed(alloc, mark(&w.kind), w.pos, expression(a))?))
}

/// The size of a type, at a place. An `Err` is want of memory.
fn size_of_type(alloc: Global, pos: u32, ty: Ty) -> Result<Expr, AllocError>
    ensures { IfOk result (λ x. expr_of x ≡ plain.SizeTy pos (ty_of ty)) }
{
    Ok(Expr {
        pos,
        form: Form::SizeTy(Box::new(alloc, ty)?),
    })
}

/// The size of an expression, at a place. An `Err` is want of memory.
fn size_of_expression(alloc: Global, pos: u32, a: Expr) -> Result<Expr, AllocError>
    ensures { IfOk result (λ x. expr_of x ≡ plain.SizeOf pos (expr_of a)) }
{
    Ok(Expr {
        pos,
        form: Form::SizeOf(Box::new(alloc, a)?),
    })
}

/// The size of what a meaning is, a bracketed type or else an expression, at a place. An `Err` is want of memory.
fn size_in(alloc: Global, pos: u32, part: &mut Meaning) -> Result<Expr, AllocError>
    ensures { IfOk result (λ x. expr_of x ≡ grammar.size_of pos (meaning_of part.old)) }
{
    match part {
        Meaning::Bracketed(_, ty) => size_of_type(alloc, pos, mem::replace(ty, Ty::Void)),
        other => size_of_expression(alloc, pos, take_expression(other)),
    }
}

/// `sizeof` of an expression or of a type.
#[tactic(auto, unfolding(c_grammar::specs::Tree::act))]
pub fn size_of(alloc: Global, w: &Value, a: &mut Value) -> Result<Meaning, AllocError>
    ensures { IfOk result (λ m. meaning_of m ≡ act production.SizeOf (more (means w.now) (more (means a.old) none))) }
{
    let pos = place(w);
    match a {
        Value::Part(made) => Ok(Meaning::Expression(size_in(alloc, pos, &mut made.meaning)?)),
        _ => Ok(Meaning::Expression(size_of_expression(alloc, pos, null())?)),
    }
}

/// The step that a mark behind its operand says.
fn step_behind(mark: Mark) -> StepOp
    ensures { result ≡ grammar.step_behind mark }
{
    match mark {
        Mark::PlusPlus => StepOp::PostInc,
        _ => StepOp::PostDec,
    }
}

/// A step behind its operand.
#[tactic(auto, unfolding(c_grammar::specs::Tree::act))]
pub fn suffix(alloc: Global, a: &mut Value, w: &mut Value) -> Result<Meaning, AllocError>
    ensures { IfOk result (λ m. meaning_of m ≡ act production.Suffix (more (means a.old) (more (means w.old) none))) }
{
    let w = token(w);
    let op = step_behind(mark(&w.kind));
    Ok(Meaning::Expression(stepped(alloc, w.pos, op, expression(a))?))
}

/// The member of an expression that a name token says, by `.` or by `->` as the mark says. An `Err` is want of memory.
fn member_of(
    alloc: Global,
    mark: Mark,
    pos: u32,
    a: Expr,
    mut name: Token,
) -> Result<Expr, AllocError>
    ensures { IfOk result (λ x. expr_of x ≡ grammar.member_of mark pos (expr_of a) (grammar.kind_name name.kind)) }
{
    let a = Box::new(alloc, a)?;
    let name = text(alloc, &mut name.kind);
    match mark {
        Mark::Dot => Ok(Expr {
            pos,
            form: Form::Member(a, name),
        }),
        _ => Ok(Expr {
            pos,
            form: Form::Arrow(a, name),
        }),
    }
}

/// A member, by `.` or by `->`.
#[tactic(auto, unfolding(c_grammar::specs::Tree::act))]
pub fn member(
    alloc: Global,
    a: &mut Value,
    w: &mut Value,
    n: &mut Value,
) -> Result<Meaning, AllocError>
    ensures { IfOk result (λ m. meaning_of m ≡ act production.Member (more (means a.old) (more (means w.old) (more (means n.old) none)))) }
{
    let w = token(w);
    let expr = member_of(alloc, mark(&w.kind), w.pos, expression(a), token(n))?;
    Ok(Meaning::Expression(expr))
}

/// An expression with an index.
#[tactic(auto, unfolding(c_grammar::specs::Tree::act))]
pub fn index(alloc: Global, a: &mut Value, o: &Value, b: &mut Value) -> Result<Meaning, AllocError>
    ensures { (c : grammar.Meaning) → IfOk result (λ m. meaning_of m ≡ act production.Index (more (means a.old) (more (means o.now) (more (means b.old) (more c none))))) }
{
    let pos = place(o);
    let a = Box::new(alloc, expression(a))?;
    let b = Box::new(alloc, expression(b))?;
    let form = Form::Index(a, b);
    Ok(Meaning::Expression(Expr { pos, form }))
}

/// A call of an expression with arguments.
fn call_form(callee: Box<Expr>, items: Vec<Expr>) -> Form
    ensures { (pos : ℕ) → form_of result pos ≡ plain.Call pos (expr_of callee.value) (exprs (map expr_of items.items)) }
{
    Form::Call(callee, Exprs { items })
}

/// A call of an expression with arguments, at a place. An `Err` is want of memory.
fn call_of(alloc: Global, pos: u32, callee: Expr, items: Vec<Expr>) -> Result<Expr, AllocError>
    ensures { IfOk result (λ x. expr_of x ≡ plain.Call pos (expr_of callee) (exprs (map expr_of items.items))) }
{
    let callee = Box::new(alloc, callee)?;
    let form = call_form(callee, items);
    Ok(Expr { pos, form })
}

/// A call: the function, the bracket and the arguments.
#[tactic(auto, unfolding(c_grammar::specs::Tree::act))]
pub fn call(
    alloc: Global,
    f: &mut Value,
    o: &Value,
    args: &mut Value,
) -> Result<Meaning, AllocError>
    ensures { IfOk result (λ m. meaning_of m ≡ act production.Call (more (means f.old) (more (means o.now) (more (means args.old) none)))) }
{
    let pos = place(o);
    let expr = call_of(alloc, pos, expression(f), expressions(alloc, args))?;
    Ok(Meaning::Expression(expr))
}

/// The arguments of a call that has none.
#[tactic(auto, unfolding(c_grammar::specs::Tree::act))]
pub fn no_arguments(alloc: Global) -> Meaning
    ensures { (ms : Meanings) → meaning_of result ≡ act production.NoArguments ms }
{
    Meaning::Expressions(Vec::new(alloc))
}

/// The arguments of a call, the first and the others.
#[tactic(auto, unfolding(c_grammar::specs::Tree::act))]
pub fn arguments(alloc: Global, a: &mut Value, others: &mut Value) -> Result<Meaning, AllocError>
    ensures { (c : grammar.Meaning) → IfOk result (λ m. meaning_of m ≡ act production.Arguments (more (means a.old) (more (means others.old) (more c none)))) }
{
    let mut exprs = Vec::new(alloc);
    exprs.push(expression(a))?;
    push_expressions(&mut exprs, others)?;
    Ok(Meaning::Expressions(exprs))
}

/// The operator on two sides that a mark says.
fn operator(mark: Mark) -> BinOp
    ensures { result ≡ grammar.operator mark }
{
    match mark {
        Mark::OrOr => BinOp::Or,
        Mark::AndAnd => BinOp::And,
        Mark::Bar => BinOp::BitOr,
        Mark::Caret => BinOp::BitXor,
        Mark::Amp => BinOp::BitAnd,
        Mark::EqEq => BinOp::Eq,
        Mark::NotEq => BinOp::Ne,
        Mark::Less => BinOp::Lt,
        Mark::Greater => BinOp::Gt,
        Mark::LessEq => BinOp::Le,
        Mark::GreaterEq => BinOp::Ge,
        Mark::Shl => BinOp::Shl,
        Mark::Shr => BinOp::Shr,
        Mark::Plus => BinOp::Add,
        Mark::Minus => BinOp::Sub,
        Mark::Star => BinOp::Mul,
        Mark::Slash => BinOp::Div,
        _ => BinOp::Mod,
    }
}

/// An operator on two sides.
#[tactic(auto, unfolding(c_grammar::specs::Tree::act))]
pub fn binary(
    alloc: Global,
    a: &mut Value,
    w: &mut Value,
    b: &mut Value,
) -> Result<Meaning, AllocError>
    ensures { (n : ℕ) → IfOk result (λ m. meaning_of m ≡ act (production.Binary n) (more (means a.old) (more (means w.old) (more (means b.old) none)))) }
{
    let w = token(w);
    let op = operator(mark(&w.kind));
    let a = Box::new(alloc, expression(a))?;
    let b = Box::new(alloc, expression(b))?;
    let form = Form::Binary(op, a, b);
    Ok(Meaning::Expression(Expr { pos: w.pos, form }))
}

/// The operator of an assignment that a mark says; none for `=`.
fn assigning(mark: Mark) -> Option<BinOp>
    ensures { result ≡ grammar.assigning mark }
{
    match mark {
        Mark::PlusAssign => Some(BinOp::Add),
        Mark::MinusAssign => Some(BinOp::Sub),
        Mark::StarAssign => Some(BinOp::Mul),
        Mark::SlashAssign => Some(BinOp::Div),
        Mark::PercentAssign => Some(BinOp::Mod),
        Mark::AmpAssign => Some(BinOp::BitAnd),
        Mark::BarAssign => Some(BinOp::BitOr),
        Mark::CaretAssign => Some(BinOp::BitXor),
        Mark::ShlAssign => Some(BinOp::Shl),
        Mark::ShrAssign => Some(BinOp::Shr),
        _ => None,
    }
}

/// An assignment, by `=` or by an operator and `=`.
#[tactic(auto, unfolding(c_grammar::specs::Tree::act))]
pub fn assign(
    alloc: Global,
    a: &mut Value,
    w: &mut Value,
    b: &mut Value,
) -> Result<Meaning, AllocError>
    ensures { IfOk result (λ m. meaning_of m ≡ act production.Assign (more (means a.old) (more (means w.old) (more (means b.old) none)))) }
{
    let w = token(w);
    let op = assigning(mark(&w.kind));
    let a = Box::new(alloc, expression(a))?;
    let b = Box::new(alloc, expression(b))?;
    let form = Form::Assign(op, a, b);
    Ok(Meaning::Expression(Expr { pos: w.pos, form }))
}

/// A choice: the condition, the `?`, and both values.
#[tactic(auto, unfolding(c_grammar::specs::Tree::act))]
pub fn cond(
    alloc: Global,
    a: &mut Value,
    q: &Value,
    b: &mut Value,
    d: &mut Value,
) -> Result<Meaning, AllocError>
    ensures { (c : grammar.Meaning) → IfOk result (λ m. meaning_of m ≡ act production.Cond (more (means a.old) (more (means q.now) (more (means b.old) (more c (more (means d.old) none)))))) }
{
    let pos = place(q);
    let a = Box::new(alloc, expression(a))?;
    let b = Box::new(alloc, expression(b))?;
    let d = Box::new(alloc, expression(d))?;
    let form = Form::Cond(a, b, d);
    Ok(Meaning::Expression(Expr { pos, form }))
}

/// Two expressions with a comma between.
#[tactic(auto, unfolding(c_grammar::specs::Tree::act))]
pub fn comma(alloc: Global, a: &mut Value, w: &Value, b: &mut Value) -> Result<Meaning, AllocError>
    ensures { IfOk result (λ m. meaning_of m ≡ act production.CommaExpr (more (means a.old) (more (means w.now) (more (means b.old) none)))) }
{
    let pos = place(w);
    let a = Box::new(alloc, expression(a))?;
    let b = Box::new(alloc, expression(b))?;
    let form = Form::Comma(a, b);
    Ok(Meaning::Expression(Expr { pos, form }))
}

/// A cast to a type.
#[tactic(auto, unfolding(c_grammar::specs::Tree::act))]
pub fn cast(alloc: Global, t: &mut Value, a: &mut Value) -> Result<Meaning, AllocError>
    ensures { IfOk result (λ m. meaning_of m ≡ act production.Cast (more (means t.old) (more (means a.old) none))) }
{
    let pos = place(t);
    let ty = Box::new(alloc, type_of(alloc, t)?)?;
    let a = Box::new(alloc, expression(a))?;
    let form = Form::Cast(ty, a);
    Ok(Meaning::Expression(Expr { pos, form }))
}
