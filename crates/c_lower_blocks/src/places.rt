// The places of a block's objects, one behind the other in the frame. They are given before the code of the block is made:
// its statements use the frame behind them.

ghost use Rattle.std.specs.Prelude.{◌≡◌, ◌++◌, ◌∷◌, [], IfOk, OnOk};
ghost use Rattle.c_syntax.specs.Plain as tree;
ghost use Rattle.c_syntax.specs.View.{decl_of, stmt_of};
ghost use Rattle.c_types.specs.Scope.{Scope};
ghost use Rattle.c_types.specs.Census.{scope_behind, scope_behind_all};
ghost use Rattle.c_eval.specs.Environment.{object_type_in, objects_in, block_objects};
ghost use Rattle.c_types.specs.Table.{HasType, IsType};
ghost use Rattle.c_declared.specs.Held.{Holds, HoldsSome};
ghost use Rattle.c_counted.specs.Rows.{stmts_of};
ghost use Rattle.c_addressing.specs.Here.{Emits};
ghost use Rattle.c_lower_blocks.specs.Laid.{Places};

use c_addressing::{Here, Output};
use c_counted::plus;
use c_declarations::{declare_object, declared_type};
use c_emission::Location;
use c_layouts::words;
use c_syntax::tree::{Decl, Stmt, Stmts};
use c_types::Shape;
use std::alloc::AllocError;

/// The number of the type of a declared object; a type that is refused is void.
pub fn object_type(out: &mut Output<'_>, here: &Here<'_>, d: &Decl) -> Result<usize, AllocError>
    requires { HoldsSome out.old.types here.now.declared }
    ensures ty { (s : Scope) → Holds out.old.types here.now.declared s → IfOk result (λ n. HasType out.new.types n (object_type_in s (decl_of d.now))) }
    ensures typed { IfOk result (λ n. IsType out.new.types n) }
    ensures still { OnOk result (Emits out.old out.new [] 0) }
{
    let ty = declared_type(&mut out.types, &here.declared, d)?;
    match ty {
        Ok(number) => Ok(number),
        Err(_) => {
            let number = out.types.number(Shape::Void)?;
            Ok(number)
        }
    }
}

// A place more.
fn add_place(bases: &mut Vec<Location>, place: Location) -> Result<(), AllocError>
    ensures { OnOk result (bases.new.items ≡ bases.old.items ++ place ∷ []) }
{
    bases.push(place)?;
    Ok(())
}

// An object gets its place in the frame from a word on, and its name is declared. The answer is the word behind it.
fn place_object<'t>(
    out: &mut Output<'_>,
    here: &mut Here<'t>,
    d: &'t Decl,
    free: u32,
) -> Result<u32, AllocError>
    requires { HoldsSome out.old.types here.old.declared }
    ensures places { IfOk result (λ behind. Places out.old out.new here.old here.new free behind (λ s. objects_in s (tree.Local (decl_of d.now))) (λ s. scope_behind s (tree.Local (decl_of d.now)))) }
    ensures still { OnOk result (Emits out.old out.new [] 0) }
{
    let ty = object_type(out, here, d)?;
    let layouts = here.declared.layouts.as_slice();
    let count = words(&out.types, layouts, ty);
    let low = count.low();
    let length = low.get();
    add_place(&mut here.bases, Location::Framed(free))?;
    declare_object(&mut out.types, &mut here.declared, false, d)?;
    Ok(plus(free, length))
}

/// The object that a statement declares in its block, if it declares one, gets its place in the frame from a word on. The
/// answer is the word behind it.
pub fn place_statement<'t>(
    out: &mut Output<'_>,
    here: &mut Here<'t>,
    t: &'t Stmt,
    free: u32,
) -> Result<u32, AllocError>
    requires { HoldsSome out.old.types here.old.declared }
    ensures places { IfOk result (λ behind. Places out.old out.new here.old here.new free behind (λ s. objects_in s (stmt_of t.now)) (λ s. scope_behind s (stmt_of t.now))) }
    ensures still { OnOk result (Emits out.old out.new [] 0) }
{
    match t {
        Stmt::Local(d) => place_object(out, here, d, free),
        _ => Ok(free),
    }
}

/// The objects of a block get their places in the frame from a word on, one behind the other. The answer is the word
/// behind them.
pub fn place_all<'t>(
    out: &mut Output<'_>,
    here: &mut Here<'t>,
    all: &'t Stmts,
    free: u32,
) -> Result<u32, AllocError>
    requires { HoldsSome out.old.types here.old.declared }
    ensures places { IfOk result (λ behind. Places out.old out.new here.old here.new free behind (λ s. block_objects s (stmts_of all.now)) (λ s. scope_behind_all s (stmts_of all.now))) }
    ensures still { OnOk result (Emits out.old out.new [] 0) }
{
    let mut behind = free;
    for t in &all.items {
        behind = place_statement(out, here, t, behind)?;
    }
    Ok(behind)
}
