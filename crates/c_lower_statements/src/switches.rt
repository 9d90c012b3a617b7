// The head of a `switch`: its comparisons with the words of the labels, and the places of its objects.

ghost use Rattle.std.specs.Prelude.{◌≡◌, ℕ, [], IfOk, OnOk};
ghost use Rattle.c_syntax.specs.Plain as tree;
ghost use Rattle.c_syntax.specs.View.{maybe, part_of};
ghost use Rattle.c_types.specs.Scope.{Scope, entered};
ghost use Rattle.c_types.specs.Census.{scope_behind_part};
ghost use Rattle.c_eval.specs.Environment.{Environment, part_objects, parts_objects, in_block};
ghost use Rattle.c_declared.specs.Held.{Holds, HoldsSome};
ghost use Rattle.c_lowered.specs.Locations.{Linking};
ghost use Rattle.c_lowered.specs.Statements as plain;
ghost use Rattle.c_lowered.specs.Statements.{cases_code};
ghost use Rattle.c_counted.specs.Numbers.{IsNumber};
ghost use Rattle.c_counted.specs.Rows.{parts_of};
ghost use Rattle.c_addressing.specs.Here.{IsHere, Emits};
ghost use Rattle.c_applied.specs.Leads.{Keeps};
ghost use Rattle.c_lower_blocks.specs.Laid.{Places};
ghost use Rattle.c_lower_blocks.specs.Standing.{Begins, StandsIn};
ghost use Rattle.c_lower_statements.specs.Pieces.{label_code, is_default, scope_behind_parts};

use c_addressing::{Here, Output, constant_in, jump_where};
use c_counted::{next, part_jumps_of, plus};
use c_emission::constant;
use c_lower_blocks::{Begun, Block, begin_anew, enter, place_statement};
use c_syntax::tree::{Expr, Part, Parts};
use eir_core::{Cond, Reg};
use std::alloc::AllocError;

// The comparison with the word of a label, if it has one, whose part begins in a block.
fn compare_word(
    out: &mut Output<'_>,
    here: &Here<'_>,
    e: &Option<Expr>,
    k: u32,
) -> Result<(), AllocError>
    requires { HoldsSome out.old.types here.now.declared }
    ensures code { (at m : ℕ) (s : Scope) → Holds out.old.types here.now.declared s → IsNumber k m → OnOk result (Emits out.old out.new (label_code (tree.Label at (maybe e.now)) s m) 0) }
    ensures keeps { OnOk result (Keeps out.old out.new) }
{
    match e {
        Some(there) => {
            let word = constant_in(out, here, there)?;
            jump_where(out, true, next(k), Cond::Eq, Reg::A, constant(word))?;
            Ok(())
        }
        None => Ok(()),
    }
}

// The comparison for a part, which begins in a block.
fn compare(out: &mut Output<'_>, here: &Here<'_>, part: &Part, k: u32) -> Result<(), AllocError>
    requires { HoldsSome out.old.types here.now.declared }
    ensures code { (m : ℕ) (s : Scope) → Holds out.old.types here.now.declared s → IsNumber k m → OnOk result (Emits out.old out.new (label_code (part_of part.now) s m) 0) }
    ensures keeps { OnOk result (Keeps out.old out.new) }
{
    match part {
        Part::Label(_at, e) => compare_word(out, here, e, k),
        Part::Item(_statement) => Ok(()),
    }
}

// The object that a part declares, if it declares one, gets its place in the frame from a word on. The answer is the word
// behind it.
fn place_part<'t>(
    out: &mut Output<'_>,
    here: &mut Here<'t>,
    part: &'t Part,
    free: u32,
) -> Result<u32, AllocError>
    requires { HoldsSome out.old.types here.old.declared }
    ensures places { IfOk result (λ behind. Places out.old out.new here.old here.new free behind (λ s. part_objects s (part_of part.now)) (λ s. scope_behind_part s (part_of part.now))) }
    ensures still { OnOk result (Emits out.old out.new [] 0) }
{
    match part {
        Part::Label(_at, _e) => Ok(free),
        Part::Item(statement) => place_statement(out, here, statement, free),
    }
}

// The parts are compared, which begin in a block, and their objects get their places in the frame from a word on. The
// answer is the word behind them.
fn compare_all<'t>(
    out: &mut Output<'_>,
    here: &mut Here<'t>,
    parts: &'t Parts,
    free: u32,
    k: u32,
) -> Result<u32, AllocError>
    requires { HoldsSome out.old.types here.old.declared }
    ensures places { IfOk result (λ behind. Places out.old out.new here.old here.new free behind (λ s. parts_objects s (parts_of parts.now)) (λ s. scope_behind_parts s (parts_of parts.now))) }
    ensures cases { (env : Environment) (m : ℕ) → Holds out.old.types here.old.declared env.scope → IsNumber k m → OnOk result (Emits out.old out.new (cases_code (parts_of parts.now) env m) 0) }
{
    let mut behind = free;
    let mut block = k;
    for part in &parts.items {
        compare(out, here, part, block)?;
        behind = place_part(out, here, part, behind)?;
        block = plus(block, part_jumps_of(part));
    }
    Ok(behind)
}

/// The block of a `switch` begins: its parts are compared, which begin in a block, and its objects get their places in the
/// frame from a word on.
pub fn begin_switch<'t>(
    out: &mut Output<'_>,
    here: &mut Here<'t>,
    parts: &'t Parts,
    free: u32,
    k: u32,
) -> Result<Begun, AllocError>
    requires { HoldsSome out.old.types here.old.declared }
    ensures begins { IfOk result (λ b. Begins out.old out.new here.old here.new b) }
    ensures cases { (w : Linking) (env : Environment) (m n : ℕ) → IsHere here.old out.old w env → IsNumber k m → OnOk result (Emits out.old out.new (cases_code (parts_of parts.now) (in_block n env) m) 0) }
    ensures stands { (w : Linking) (env : Environment) (n : ℕ) → IsHere here.old out.old w env → IsNumber free n → IfOk result (λ b. StandsIn here.new out.new b.block w env n (parts_objects (entered env.scope) (parts_of parts.now))) }
{
    let marks = enter(here);
    let behind = compare_all(out, here, parts, free, k)?;
    begin_anew(here, marks)?;
    Ok(Begun {
        block: Block {
            next: marks.bases,
            free: behind,
        },
        marks,
    })
}

// Whether a part is a default.
fn is_default(part: &Part) -> bool
    ensures { result ≡ is_default (part_of part.now) }
{
    match part {
        Part::Label(_at, e) => e.is_none(),
        Part::Item(_statement) => false,
    }
}

/// The block of the default among parts that begin in a block, or else another one.
pub fn default_block(parts: &Parts, k: u32, end: u32) -> u32
    ensures { (m n : ℕ) → IsNumber k m → IsNumber end n → IsNumber result (plain.default_block (parts_of parts.now) m n) }
{
    let mut block = k;
    for part in &parts.items {
        if is_default(part) {
            return next(block);
        }
        block = plus(block, part_jumps_of(part));
    }
    end
}
