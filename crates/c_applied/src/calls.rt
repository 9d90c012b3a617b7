// How what is called is called.

ghost use Rattle.std.specs.Prelude.{◌≡◌, ℕ, false};
ghost use Rattle.c_syntax.specs.View.{expr_of, exprs_of};
ghost use Rattle.c_types.specs.Scope.{Scope, entity_of};
ghost use Rattle.c_types.specs.Table.{Table};
ghost use Rattle.c_eval.specs.Environment.{Environment};
ghost use Rattle.c_eval.specs.LiteralsIn.{names_printf};
ghost use Rattle.c_operands.specs.Scoped.{Fits, IsEntityOrNone};
ghost use Rattle.c_lowered.specs.Counts.{is_known_to_helpers};
ghost use Rattle.c_lowered.specs.Locations.{Linking};
ghost use Rattle.c_syntax.specs.Plain as tree;
ghost use Rattle.c_addressing.specs.declared.here.Output.{Output};
ghost use Rattle.c_addressing.specs.Here.{IsHere};
ghost use Rattle.c_applied.specs.Calls.{IsCalled};
ghost use Rattle.c_applied.specs.Calls as told;
ghost use Rattle.c_applied.specs.Pieces as pieces;

use c_addressing::{Here, entry_of};
use c_counted::is_known_to_helpers;
use c_expressions::name_in;
use c_scopes::Entity;
use c_syntax::tree::{Expr, Exprs};

/// How what is called is called.
#[derive(Clone, Copy)]
pub enum Called<'n> {
    /// A name that helper functions alone call.
    Helper(&'n [u8]),
    /// The function whose first block this is.
    Routine(u32),
    /// A function that is always known.
    BuiltIn(&'n [u8]),
    /// `printf`.
    Format,
    /// Through the value of an expression.
    Through,
}

// A name that is called, by what it stands for.
fn called_entity<'n>(here: &Here<'_>, name: &'n [u8], entity: Option<Entity>) -> Called<'n>
    ensures { (out : Output) (w : Linking) (env : Environment) (at : ℕ) → IsHere here.now out w env → is_known_to_helpers name.now ≡ false → IsEntityOrNone out.types entity (entity_of env.scope name.now) → IsCalled result w env.scope (tree.Var at name.now) }
{
    match entity {
        Some(found) => match found {
            Entity::Object(_ty) => Called::Through,
            Entity::Routine(_ty, _begun) => Called::Routine(entry_of(here, name)),
            Entity::BuiltIn(_ty) => Called::BuiltIn(name),
            Entity::Printf => Called::Format,
        },
        None => Called::Through,
    }
}

// A name that is called.
fn called_name<'n>(here: &Here<'_>, name: &'n [u8]) -> Called<'n>
    ensures { (out : Output) (w : Linking) (env : Environment) (at : ℕ) → IsHere here.now out w env → IsCalled result w env.scope (tree.Var at name.now) }
{
    if is_known_to_helpers(name) {
        return Called::Helper(name);
    }
    called_entity(here, name, here.declared.names.get(name))
}

/// How an expression is called.
pub fn callee_of<'n>(here: &Here<'_>, f: &'n Expr) -> Called<'n>
    ensures { (out : Output) (w : Linking) (env : Environment) → IsHere here.now out w env → IsCalled result w env.scope (expr_of f.now) }
{
    match name_in(f) {
        Some(name) => called_name(here, name),
        None => Called::Through,
    }
}

// Whether a name stands for `printf`.
fn is_format(entity: Option<Entity>) -> bool
    ensures { result ≡ told.is_format entity }
{
    match entity {
        Some(found) => match found {
            Entity::Printf => true,
            Entity::Object(_ty) => false,
            Entity::Routine(_ty, _begun) => false,
            Entity::BuiltIn(_ty) => false,
        },
        None => false,
    }
}

/// Whether an expression is the name of `printf`.
pub fn is_format_name(here: &Here<'_>, f: &Expr) -> bool
    ensures { (table : Table) (s : Scope) → Fits table here.now.declared s → result ≡ names_printf s (expr_of f.now) }
{
    match name_in(f) {
        Some(name) => is_format(here.declared.names.get(name)),
        None => false,
    }
}

/// Whether there are more arguments than one.
pub fn are_several(es: &Exprs) -> bool
    ensures { result ≡ pieces.are_several (exprs_of es.now) }
{
    es.items.len() > 1
}
