// Names as first values.

ghost use Rattle.std.specs.Prelude.{◌≡◌, [], IfOk, OnOk, MatchOption};
ghost use Rattle.c_types.specs.Table.{Table};
ghost use Rattle.c_eval.specs.State as run;
ghost use Rattle.c_eval.specs.Environment.{Environment};
ghost use Rattle.c_eval.specs.Text.{static_named};
ghost use Rattle.c_emitted.specs.Emits.{Emits, tables_of};
ghost use Rattle.c_store.specs.Values as values;
ghost use Rattle.c_store.specs.Shown.{value_of};
ghost use Rattle.c_static.specs.Forms.{is_object};
ghost use Rattle.c_static.specs.File.{IsAtFile, IsWorth};

use c_emitted::{Emitter, File};
use c_operands::Declarations;
use c_scopes::Entity;
use c_store::{Pointer, Value};
use std::alloc::AllocError;

/// Whether a name stands for an object.
pub fn is_object(entity: Option<Entity>) -> bool
    ensures { result ≡ is_object entity }
{
    matches!(entity, Some(Entity::Object(_)))
}

// The start of an object.
fn start_of(file: File) -> Value
    ensures { value_of result ≡ values.Point file.object file.length 0 }
{
    Value::Point(Pointer {
        object: u64::from(file.object),
        place: file.object as usize,
        length: file.length,
        offset: 0,
    })
}

// The start of the object that a name stands for, if it stands for one.
fn start_of_object(declared: &Declarations<'_>, out: &Emitter<'_>, name: &[u8]) -> Option<Value>
    ensures { (table : Table) (env : Environment) → IsAtFile table declared.now out.now env → MatchOption result (static_named env name.now ≡ run.Function name.now) (λ v. IsWorth (tables_of out.now) (static_named env name.now) v) }
{
    if is_object(declared.names.get(name)) {
        match out.files.get(&name).copied() {
            Some(file) => Some(start_of(file)),
            None => None,
        }
    } else {
        None
    }
}

/// What a name is worth at file scope: the start of its object, or else the function.
pub fn static_named<'t>(
    declared: &Declarations<'_>,
    out: &mut Emitter<'t>,
    name: &'t [u8],
) -> Result<Value, AllocError>
    ensures worth { (table : Table) (env : Environment) → IsAtFile table declared.now out.old env → IfOk result (λ v. IsWorth (tables_of out.new) (static_named env name.now) v) }
    ensures emits { OnOk result (Emits out.old out.new [] []) }
{
    match start_of_object(declared, out, name) {
        Some(start) => Ok(start),
        None => {
            let number = out.name_number(name)?;
            Ok(Value::Function(number))
        }
    }
}
