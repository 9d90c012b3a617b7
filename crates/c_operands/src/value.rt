// Operands as values.

ghost use Rattle.std.specs.Prelude.{◌≡◌, IfOk, OnOk, ◌||◌};
ghost use Rattle.c_types.specs.Types.{CType};
ghost use Rattle.c_types.specs.Operands as plain;
ghost use Rattle.c_types.specs.Operands.{is_zero};
ghost use Rattle.c_types.specs.Table.{Table, known, HasType, IsType};
ghost use Rattle.c_types.specs.Known.{Grows};
ghost use Rattle.c_operands.specs.Classes.{null_type};
ghost use Rattle.c_operands.specs.Seen.{IsOperand, IsValue, sort_of};

use crate::class::{Class, class_of, used_type};
use crate::operand::{Operand, Sort, Value};
use c_types::{Constant, Types};
use std::alloc::AllocError;

/// A value of a type that isn't known before the program runs.
pub fn value_at(at: u32, ty: usize) -> Operand
    ensures { (table : Table) (t : CType) → HasType table ty t → IsOperand table result (plain.value_at at t) }
{
    Operand {
        at,
        ty,
        sort: Sort::Other,
        constant: Constant::NotConstant,
    }
}

/// A place of a type.
pub fn place_at(at: u32, ty: usize) -> Operand
    ensures { (table : Table) (t : CType) → HasType table ty t → IsOperand table result (plain.place_at at t) }
{
    Operand {
        at,
        ty,
        sort: Sort::Place,
        constant: Constant::NotConstant,
    }
}

// Whether an operand of a class is NULL or a literal 0.
fn is_null_constant(sort: Sort, class: Class) -> bool
    ensures { result ≡ (is_zero (sort_of sort) || null_type class) }
{
    sort.is_zero() || class.is_null()
}

/// An operand as it is used for its value.
pub fn value_of(types: &mut Types<'_>, a: Operand) -> Result<Value, AllocError>
    requires { IsType types.old a.ty }
    ensures value { (x : plain.Operand) → IsOperand types.old a x → IfOk result (λ v. IsValue types.new v x) }
    ensures grows { OnOk result (Grows (known types.old) (known types.new)) }
    ensures tags { OnOk result (types.new.tags ≡ types.old.tags) }
{
    let ty = used_type(types, a.ty)?;
    let class = class_of(types, ty);
    Ok(Value {
        ty,
        class,
        null: is_null_constant(a.sort, class),
    })
}
