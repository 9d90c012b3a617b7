// First values of objects.

ghost use Rattle.std.specs.Prelude.{◌≡◌, Option, IfOk, OnOk};
ghost use Rattle.std.specs.Result.{result_err};
ghost use Rattle.c_syntax.specs.Plain as tree;
ghost use Rattle.c_syntax.specs.View.{expr_of, value_of};
ghost use Rattle.c_types.specs.Types.{CType};
ghost use Rattle.c_types.specs.Scope.{Scope};
ghost use Rattle.c_types.specs.Declarations as plain;
ghost use Rattle.c_types.specs.Declarations.{fitting, all_fitting};
ghost use Rattle.c_types.specs.Table.{known};
ghost use Rattle.c_types.specs.Known.{Grows};
ghost use Rattle.c_declared.specs.Slots.{IsTypeOrNone, IsSomeOrNone, AreSlots};
ghost use Rattle.c_declared.specs.Held.{Holds, HoldsSome};
ghost use Rattle.c_declarations.specs.Sites.{site_of, values_of, AreSomeSlots};

use c_declared::{Slots, braces_fault, figure_of, merged_behind, slots_of, value_fault};
use c_expressions::judge;
use c_operands::{Declarations, merged};
use c_syntax::tree::{Expr, Value, Values};
use c_types::{TypeFault, Types};
use std::alloc::AllocError;

/// Where a first value stands: whether at file scope, and the place of its declaration.
#[derive(Clone, Copy)]
pub struct Site {
    pub file: bool,
    pub at: u32,
}

// The refusal of a first value that is one expression.
fn fit_one(
    types: &mut Types<'_>,
    declared: &Declarations<'_>,
    site: Site,
    ty: Option<usize>,
    e: &Expr,
) -> Result<Option<TypeFault>, AllocError>
    requires holds { HoldsSome types.old declared.now }
    requires ty { IsSomeOrNone types.old ty }
    ensures told { (s : Scope) (t : Option CType) → Holds types.old declared.now s → IsTypeOrNone types.old ty t → IfOk result (λ r. r ≡ result_err (fitting s (site_of site) t (tree.One (expr_of e.now)))) }
    ensures grows { OnOk result (Grows (known types.old) (known types.new)) }
    ensures tags { OnOk result (types.new.tags ≡ types.old.tags) }
{
    let value = judge(types, declared, e)?;
    match value {
        Ok(a) => value_fault(types, site.file, ty, figure_of(e), a),
        Err(fault) => Ok(Some(fault)),
    }
}

/// The refusal of a first value, if it is refused: it fits an object of a type, or stands for no object.
#[cycle(values)]
pub fn fit(
    types: &mut Types<'_>,
    declared: &Declarations<'_>,
    site: Site,
    ty: Option<usize>,
    value: &Value,
) -> Result<Option<TypeFault>, AllocError>
    requires holds { HoldsSome types.old declared.now }
    requires ty { IsSomeOrNone types.old ty }
    ensures told { (s : Scope) (t : Option CType) → Holds types.old declared.now s → IsTypeOrNone types.old ty t → IfOk result (λ r. r ≡ result_err (fitting s (site_of site) t (value_of value.now))) }
    ensures grows { OnOk result (Grows (known types.old) (known types.new)) }
    ensures tags { OnOk result (types.new.tags ≡ types.old.tags) }
{
    match value {
        Value::One(e) => fit_one(types, declared, site, ty, e),
        Value::Many(values) => {
            let layouts = declared.layouts.as_slice();
            let slots = slots_of(types, layouts, ty);
            let parts = fit_all(types, declared, site, slots, values)?;
            let count = values.items.len();
            let own = braces_fault(layouts, site.at, slots, count);
            Ok(merged_behind(parts, own))
        }
    }
}

// The refusal of the values of a braced list.
#[cycle(values)]
fn fit_all(
    types: &mut Types<'_>,
    declared: &Declarations<'_>,
    site: Site,
    slots: Slots,
    values: &Values,
) -> Result<Option<TypeFault>, AllocError>
    requires holds { HoldsSome types.old declared.now }
    requires slots { AreSomeSlots types.old declared.now.layouts.items slots }
    ensures told { (s : Scope) (all : plain.Slots) → Holds types.old declared.now s → AreSlots types.old declared.now.layouts.items slots all → IfOk result (λ r. r ≡ result_err (all_fitting s (site_of site) all (values_of values.now))) }
    ensures grows { OnOk result (Grows (known types.old) (known types.new)) }
    ensures tags { OnOk result (types.new.tags ≡ types.old.tags) }
{
    let layouts = declared.layouts.as_slice();
    let count = values.items.len();
    let mut told = None;
    for k in 0..count {
        let value = &values.items[k];
        let ty = slots.at(layouts, k);
        let refusal = fit(types, declared, site, ty, value)?;
        told = merged(told, refusal);
    }
    Ok(told)
}
