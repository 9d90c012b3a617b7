// Expressions that are made anew.

use c_operands::{Judged, Operand};
use c_syntax::tree::Expr;

/// A tree with fewer operators, and what the expression is judged to be from which it comes.
#[derive(Drop)]
pub struct Remade {
    pub tree: Expr,
    pub judged: Judged<Operand>,
}
