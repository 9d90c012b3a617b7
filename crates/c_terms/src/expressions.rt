// Expressions from their parts, each at a place of the text.

ghost use Rattle.std.specs.Prelude.{◌≡◌, ℕ, map, IfOk};
ghost use Rattle.c_syntax.specs.Plain as plain;
ghost use Rattle.c_syntax.specs.Plain.{exprs};
ghost use Rattle.c_syntax.specs.View.{form_of, expr_of, ty_of};

use c_syntax::text::Text;
use c_syntax::tree::{BinOp, Expr, Exprs, Form, StepOp, Ty, UnOp};
use std::alloc::{AllocError, Global};

/// A number.
pub fn number(pos: u32, value: u32, unsigned: bool) -> Expr
    ensures { expr_of result ≡ plain.Number pos value unsigned }
{
    Expr {
        pos,
        form: Form::Number(value, unsigned),
    }
}

/// A name.
pub fn variable(alloc: Global, pos: u32, name: &[u8]) -> Result<Expr, AllocError>
    ensures { IfOk result (λ e. expr_of e ≡ plain.Var pos name.now) }
{
    let name = Text::from_bytes(Vec::from_slice(alloc, name)?);
    Ok(Expr {
        pos,
        form: Form::Name(name),
    })
}

/// An operator on one operand.
pub fn unary(alloc: Global, pos: u32, op: UnOp, a: Expr) -> Result<Expr, AllocError>
    ensures { IfOk result (λ e. expr_of e ≡ plain.Unary pos op (expr_of a)) }
{
    Ok(Expr {
        pos,
        form: Form::Unary(op, Box::new(alloc, a)?),
    })
}

/// A step of a place in memory.
pub fn step(alloc: Global, pos: u32, op: StepOp, a: Expr) -> Result<Expr, AllocError>
    ensures { IfOk result (λ e. expr_of e ≡ plain.Step pos op (expr_of a)) }
{
    Ok(Expr {
        pos,
        form: Form::Step(op, Box::new(alloc, a)?),
    })
}

/// An operator on two operands.
pub fn binary(alloc: Global, pos: u32, op: BinOp, a: Expr, b: Expr) -> Result<Expr, AllocError>
    ensures { IfOk result (λ e. expr_of e ≡ plain.Binary pos op (expr_of a) (expr_of b)) }
{
    let a = Box::new(alloc, a)?;
    let b = Box::new(alloc, b)?;
    let form = Form::Binary(op, a, b);
    Ok(Expr { pos, form })
}

/// An assignment to a place in memory, perhaps with an operator.
pub fn assign(
    alloc: Global,
    pos: u32,
    op: Option<BinOp>,
    a: Expr,
    b: Expr,
) -> Result<Expr, AllocError>
    ensures { IfOk result (λ e. expr_of e ≡ plain.Assign pos op (expr_of a) (expr_of b)) }
{
    let a = Box::new(alloc, a)?;
    let b = Box::new(alloc, b)?;
    let form = Form::Assign(op, a, b);
    Ok(Expr { pos, form })
}

/// One of two operands, as a condition says.
pub fn conditional(alloc: Global, pos: u32, a: Expr, b: Expr, c: Expr) -> Result<Expr, AllocError>
    ensures { IfOk result (λ e. expr_of e ≡ plain.Cond pos (expr_of a) (expr_of b) (expr_of c)) }
{
    let a = Box::new(alloc, a)?;
    let b = Box::new(alloc, b)?;
    let c = Box::new(alloc, c)?;
    let form = Form::Cond(a, b, c);
    Ok(Expr { pos, form })
}

/// One operand and then the other.
pub fn comma(alloc: Global, pos: u32, a: Expr, b: Expr) -> Result<Expr, AllocError>
    ensures { IfOk result (λ e. expr_of e ≡ plain.Comma pos (expr_of a) (expr_of b)) }
{
    let a = Box::new(alloc, a)?;
    let b = Box::new(alloc, b)?;
    let form = Form::Comma(a, b);
    Ok(Expr { pos, form })
}

/// A cast to a type.
pub fn cast(alloc: Global, pos: u32, ty: Ty, a: Expr) -> Result<Expr, AllocError>
    ensures { IfOk result (λ e. expr_of e ≡ plain.Cast pos (ty_of ty) (expr_of a)) }
{
    let ty = Box::new(alloc, ty)?;
    let a = Box::new(alloc, a)?;
    let form = Form::Cast(ty, a);
    Ok(Expr { pos, form })
}

/// An element of an array.
pub fn index(alloc: Global, pos: u32, a: Expr, b: Expr) -> Result<Expr, AllocError>
    ensures { IfOk result (λ e. expr_of e ≡ plain.Index pos (expr_of a) (expr_of b)) }
{
    let a = Box::new(alloc, a)?;
    let b = Box::new(alloc, b)?;
    let form = Form::Index(a, b);
    Ok(Expr { pos, form })
}

// A call with arguments.
fn call_form(callee: Box<Expr>, items: Vec<Expr>) -> Form
    ensures { (pos : ℕ) → form_of result pos ≡ plain.Call pos (expr_of callee.value) (exprs (map expr_of items.items)) }
{
    Form::Call(callee, Exprs { items })
}

/// A call with arguments.
pub fn call(alloc: Global, pos: u32, callee: Expr, items: Vec<Expr>) -> Result<Expr, AllocError>
    ensures { IfOk result (λ e. expr_of e ≡ plain.Call pos (expr_of callee) (exprs (map expr_of items.items))) }
{
    let callee = Box::new(alloc, callee)?;
    let form = call_form(callee, items);
    Ok(Expr { pos, form })
}

/// A member of a struct.
pub fn member(alloc: Global, pos: u32, a: Expr, name: Text) -> Result<Expr, AllocError>
    ensures { IfOk result (λ e. expr_of e ≡ plain.Member pos (expr_of a) name) }
{
    let a = Box::new(alloc, a)?;
    let form = Form::Member(a, name);
    Ok(Expr { pos, form })
}

/// A member of the struct that a pointer points to.
pub fn arrow(alloc: Global, pos: u32, a: Expr, name: Text) -> Result<Expr, AllocError>
    ensures { IfOk result (λ e. expr_of e ≡ plain.Arrow pos (expr_of a) name) }
{
    let a = Box::new(alloc, a)?;
    let form = Form::Arrow(a, name);
    Ok(Expr { pos, form })
}
