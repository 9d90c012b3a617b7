// The rules of first values.

ghost use Rattle.std.specs.Prelude.{◌≡◌, ◌<◌, ◌++◌, [], ◌∷◌, ℕ, length, Option, Some, IfOk, OnOk};
ghost use Rattle.c_syntax.specs.Plain.{CExpr, CValues};
ghost use Rattle.c_types.specs.declared.fault.TypeFault.TheVariants.{Mismatch};
ghost use Rattle.c_types.specs.Types.{CType};
ghost use Rattle.c_types.specs.Refusals.{broken};
ghost use Rattle.c_types.specs.Operands as plain;
ghost use Rattle.c_types.specs.Declarations as declarations;
ghost use Rattle.c_types.specs.Declarations.{object_rules, site_rules, static_rules, braces_rules, count_values};
ghost use Rattle.c_types.specs.Table.{Table, known, HasType, IsType};
ghost use Rattle.c_types.specs.Known.{Grows};
ghost use Rattle.c_operands.specs.Seen.{IsOperand};
ghost use Rattle.c_declared.specs.Figures.{figure_of};
ghost use Rattle.c_declared.specs.Slots.{AreSlots, IsTypeOrNone, IsSomeOrNone, takes_text};

use crate::figure::Figure;
use crate::length::{array_parts, is_character};
use crate::slots::Slots;
use c_layouts::Layout;
use c_operands::{Operand, class_of, converts, merged, value_of};
use c_types::{Constant, TypeFault, Types};
use std::alloc::AllocError;

// The refusal of one rule.
fn mismatch(kept: bool, at: u32) -> Option<TypeFault>
    ensures { result ≡ broken ((kept, Mismatch at) ∷ []) }
{
    if kept {
        None
    } else {
        Some(TypeFault::Mismatch(at))
    }
}

// Whether an array of a type takes a string of so many bytes.
fn takes_text(types: &Types<'_>, ty: usize, count: usize) -> bool
    requires { ty < length (known types.now) }
    ensures { (t : CType) → HasType types.now ty t → result ≡ takes_text t count }
{
    match array_parts(types.shape(ty)) {
        Some((of, most)) => is_character(types.shape(of)) && count <= most,
        None => false,
    }
}

// Whether a type takes an expression as a string.
fn takes_string(types: &Types<'_>, ty: usize, figure: Figure) -> bool
    requires { ty < length (known types.now) }
    ensures { (t : CType) (e : CExpr) → HasType types.now ty t → figure ≡ figure_of e → result ≡ declarations.takes_string t e }
{
    match figure {
        Figure::Text(count) => takes_text(types, ty, count),
        _ => false,
    }
}

// Whether an expression is static by its form.
fn is_static(types: &Types<'_>, figure: Figure, a: Operand) -> bool
    requires { a.ty < length (known types.now) }
    ensures { (x : plain.Operand) (e : CExpr) → IsOperand types.now a x → figure ≡ figure_of e → result ≡ declarations.is_static_form e x }
{
    match figure {
        Figure::Text(_) | Figure::Null | Figure::AddressOfName => true,
        Figure::Name => class_of(types, a.ty).is_array() || a.sort.is_designator(),
        Figure::Other => false,
    }
}

// The refusal of a first value at file scope that isn't static and no constant expression.
fn static_fault(types: &Types<'_>, figure: Figure, a: Operand) -> Option<TypeFault>
    requires { a.ty < length (known types.now) }
    ensures { (x : plain.Operand) (e : CExpr) → IsOperand types.now a x → figure ≡ figure_of e → result ≡ broken (static_rules e x x.constant) }
{
    match a.constant {
        Constant::NotConstant => mismatch(is_static(types, figure, a), a.at),
        Constant::Undefined(at) => Some(TypeFault::Mismatch(at)),
        Constant::Value(_) => None,
    }
}

// The refusal of a first value where it stands.
fn site_fault(types: &Types<'_>, file: bool, figure: Figure, a: Operand) -> Option<TypeFault>
    requires { a.ty < length (known types.now) }
    ensures { (x : plain.Operand) (e : CExpr) → IsOperand types.now a x → figure ≡ figure_of e → result ≡ broken (site_rules file e x) }
{
    if file {
        static_fault(types, figure, a)
    } else {
        None
    }
}

// The refusal of a first value that neither converts to the object's type nor is a string that it takes.
fn object_fault(
    types: &mut Types<'_>,
    ty: Option<usize>,
    figure: Figure,
    a: Operand,
) -> Result<Option<TypeFault>, AllocError>
    requires a { IsType types.old a.ty }
    requires ty { IsSomeOrNone types.old ty }
    ensures told { (x : plain.Operand) (t : Option CType) (e : CExpr) → IsOperand types.old a x → IsTypeOrNone types.old ty t → figure ≡ figure_of e → IfOk result (λ r. r ≡ broken (object_rules t e x)) }
    ensures grows { OnOk result (Grows (known types.old) (known types.new)) }
    ensures tags { OnOk result (types.new.tags ≡ types.old.tags) }
{
    match ty {
        Some(number) => {
            let value = value_of(types, a)?;
            let taken = takes_string(types, number, figure);
            let kept = taken || converts(types, value, number, class_of(types, number));
            Ok(mismatch(kept, a.at))
        }
        None => Ok(None),
    }
}

/// The refusal of a first value that is one expression, for an object of a type or for none, at file scope or within
/// a function.
pub fn value_fault(
    types: &mut Types<'_>,
    file: bool,
    ty: Option<usize>,
    figure: Figure,
    a: Operand,
) -> Result<Option<TypeFault>, AllocError>
    requires a { IsType types.old a.ty }
    requires ty { IsSomeOrNone types.old ty }
    ensures told { (x : plain.Operand) (t : Option CType) (e : CExpr) → IsOperand types.old a x → IsTypeOrNone types.old ty t → figure ≡ figure_of e → IfOk result (λ r. r ≡ broken (object_rules t e x ++ site_rules file e x)) }
    ensures grows { OnOk result (Grows (known types.old) (known types.new)) }
    ensures tags { OnOk result (types.new.tags ≡ types.old.tags) }
{
    let object = object_fault(types, ty, figure, a)?;
    let site = site_fault(types, file, figure, a);
    Ok(merged(object, site))
}

/// The refusal of braces with so many values, at the place of their declaration: no more than there are objects for.
pub fn braces_fault(
    layouts: &[Layout<'_>],
    at: u32,
    slots: Slots,
    count: usize,
) -> Option<TypeFault>
    ensures { (table : Table) (s : declarations.Slots) (vs : CValues) → AreSlots table layouts.now slots s → count ≡ count_values vs → result ≡ broken (braces_rules at s vs) }
{
    mismatch(slots.holds(layouts, count), at)
}
