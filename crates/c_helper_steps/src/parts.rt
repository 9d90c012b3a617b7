// What is made so far of a tree.

ghost use Rattle.std.specs.Prelude.{◌≡◌, OnOk};
ghost use Rattle.c_syntax.specs.View.{expr_of, stmt_of};
ghost use Rattle.c_helper_steps.specs.Postfix.{nothing, with_expr, with_stmt, top, below, last_stmt, before};
ghost use Rattle.c_helper_steps.specs.Seen.{seen};

use c_syntax::tree::{Expr, Form, Stmt};
use std::alloc::{AllocError, Global};

/// What no other tree has taken yet.
#[derive(Drop)]
pub struct Parts {
    pub exprs: Vec<Expr>,
    /// The arguments of the next call.
    pub arguments: Vec<Expr>,
    /// The statements of the innermost open block.
    pub row: Vec<Stmt>,
    /// Those of the blocks around it.
    pub blocks: Vec<Vec<Stmt>>,
}

impl Parts {
    /// Nothing yet.
    pub fn start(alloc: Global) -> Parts
        ensures { seen result ≡ nothing }
    {
        Parts {
            exprs: Vec::new(alloc),
            arguments: Vec::new(alloc),
            row: Vec::new(alloc),
            blocks: Vec::new(alloc),
        }
    }

    /// An expression more.
    pub fn put(&mut self, e: Expr) -> Result<(), AllocError>
        ensures { OnOk result (seen self.new ≡ with_expr (expr_of e) (seen self.old)) }
    {
        self.exprs.push(e)?;
        Ok(())
    }

    /// A statement more.
    pub fn put_statement(&mut self, s: Stmt) -> Result<(), AllocError>
        ensures { OnOk result (seen self.new ≡ with_stmt (stmt_of s) (seen self.old)) }
    {
        self.row.push(s)?;
        Ok(())
    }

    /// The last expression is taken.
    pub fn take(&mut self) -> Expr
        ensures value { expr_of result ≡ top (seen self.old) }
        ensures rest { seen self.new ≡ below (seen self.old) }
    {
        match self.exprs.pop() {
            Some(e) => e,
            None => Expr {
                pos: 0,
                form: Form::Null,
            },
        }
    }

    /// The last statement is taken.
    pub fn take_statement(&mut self) -> Stmt
        ensures value { stmt_of result ≡ last_stmt (seen self.old) }
        ensures rest { seen self.new ≡ before (seen self.old) }
    {
        match self.row.pop() {
            Some(s) => s,
            None => Stmt::Empty,
        }
    }
}
