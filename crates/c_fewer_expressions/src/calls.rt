// Calls.

ghost use Rattle.std.specs.Prelude.{◌≡◌, map, option_map, IfOk, OnOk};
ghost use Rattle.c_syntax.specs.Plain as plain;
ghost use Rattle.c_syntax.specs.Plain.{CExpr, CExprs, exprs};
ghost use Rattle.c_syntax.specs.View.{expr_of};
ghost use Rattle.c_types.specs.Scope.{Scope};
ghost use Rattle.c_types.specs.Expressions.{format_of};
ghost use Rattle.c_types.specs.Table.{known};
ghost use Rattle.c_types.specs.Known.{Grows};
ghost use Rattle.c_helpers.specs.Fewer.{call_tree, behind_format};
ghost use Rattle.c_helpers.specs.Functions.{format_name};
ghost use Rattle.c_fewer_operators.specs.Here.{Stands};
ghost use Rattle.c_fewer_trees.specs.Remade.{ComesFrom};
ghost use Rattle.c_fewer_expressions.specs.Calls.{CalledFrom, GivenFrom, CallParts};

use crate::names::{Named, naming};
use c_expressions::after_call;
use c_fewer_operators::Here;
use c_fewer_trees::Remade;
use c_operands::{Argument, Callee, Judged};
use c_syntax::tree::Expr;
use c_terms::{call, variable};
use c_types::Types;
use std::alloc::{AllocError, Global};

/// What is called: its tree, and what it is judged to be.
#[derive(Drop)]
pub struct Called {
    pub tree: Expr,
    pub judged: Judged<Callee>,
}

/// The arguments of a call: their trees, and what they are judged to be.
#[derive(Drop)]
pub struct Given {
    pub trees: Vec<Expr>,
    pub judged: Judged<Vec<Argument>>,
}

// The name of the function that stands for `printf` with a format.
fn format_name(alloc: Global, format: &[u8]) -> Result<Vec<u8>, AllocError>
    ensures { IfOk result (λ n. n.items ≡ format_name format.now) }
{
    let mut name = Vec::from_slice(alloc, b"printf ")?;
    name.extend_from_slice(format)?;
    Ok(name)
}

// The arguments but the first.
fn behind_first(mut arguments: Vec<Expr>) -> Vec<Expr>
    ensures { exprs (map expr_of result.items) ≡ behind_format (exprs (map expr_of arguments.items)) }
{
    if arguments.is_empty() {
        arguments
    } else {
        let _format = arguments.remove(0);
        arguments
    }
}

// A call of the function of a format.
fn format_call(
    alloc: Global,
    at: u32,
    pos: u32,
    format: &[u8],
    arguments: Vec<Expr>,
) -> Result<Expr, AllocError>
    ensures { IfOk result (λ e. expr_of e ≡ plain.Call at (plain.Var pos (format_name format.now)) (behind_format (exprs (map expr_of arguments.items)))) }
{
    let name = format_name(alloc, format)?;
    let callee = variable(alloc, pos, name.as_slice())?;
    let behind = behind_first(arguments);
    call(alloc, at, callee, behind)
}

// A call, with the format of the arguments as they were.
fn call_tree(
    types: &Types<'_>,
    here: &Here<'_>,
    at: u32,
    callee: Expr,
    format: Option<&[u8]>,
    arguments: Vec<Expr>,
) -> Result<Expr, AllocError>
    ensures { (s : Scope) → Stands types.now here.now s → IfOk result (λ e. expr_of e ≡ call_tree s at (expr_of callee) (option_map (λ f. f.now) format.entry) (exprs (map expr_of arguments.items))) }
{
    let alloc = here.declared.alloc;
    let what = naming(types, here, &callee);
    match what {
        Named::Printf => match format {
            Some(text) => format_call(alloc, at, callee.pos, text, arguments),
            None => call(alloc, at, callee, arguments),
        },
        Named::Puts => {
            let name = variable(alloc, callee.pos, b"string and line feed")?;
            call(alloc, at, name, arguments)
        }
        Named::Other => call(alloc, at, callee, arguments),
    }
}

/// A call of what is called with arguments, with their format as they were.
pub fn remade_call(
    types: &mut Types<'_>,
    here: &Here<'_>,
    at: u32,
    callee: Called,
    format: Option<&[u8]>,
    given: Given,
) -> Result<Remade, AllocError>
    requires { CallParts types.old here.now at callee given }
    ensures made { (s : Scope) (f : CExpr) (es : CExprs) → Stands types.old here.now s → CalledFrom types.old callee s at f → GivenFrom types.old given s es → option_map (λ f. f.now) format.entry ≡ format_of es → IfOk result (λ r. ComesFrom types.new r s (plain.Call at f es)) }
    ensures grows { OnOk result (Grows (known types.old) (known types.new)) }
    ensures tags { OnOk result (types.new.tags ≡ types.old.tags) }
{
    let whole = after_call(types, at, callee.judged, format, given.judged)?;
    let tree = call_tree(types, here, at, callee.tree, format, given.trees)?;
    Ok(Remade {
        tree,
        judged: whole,
    })
}
