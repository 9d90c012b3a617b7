// Where a run starts.

ghost use Rattle.std.specs.Prelude.{◌≡◌, [], IfOk, OnOk};
ghost use Rattle.c_store.specs.Words.{entered};
ghost use Rattle.c_plain.specs.Program.{program_of};
ghost use Rattle.c_plain.specs.Rule.{nothing_yet, opening_call};
ghost use Rattle.c_parts.specs.Parts.{machine_of, ComesQuietly};

use c_parts::{Halt, Opened, Parts, Slots, Values, calls};
use c_plain::Plain;
use c_store::{Act, Store};
use std::alloc::{AllocError, Global};

// The objects of file scope live.
fn enter_objects(store: &mut Store, plain: &Plain) -> Result<(), AllocError>
    ensures { OnOk result (store.new ≡ entered (program_of plain.now).objects store.old) }
{
    for cells in plain.objects.iter() {
        store.enter_cells(cells)?;
    }
    Ok(())
}

/// What a machine has before its opening call.
pub fn parts_at_start(alloc: Global, plain: &Plain, fuel: u64) -> Result<Parts, AllocError>
    ensures machine { IfOk result (λ parts. machine_of parts ≡ nothing_yet (program_of plain.now) fuel) }
    ensures none { IfOk result (λ parts. parts.arguments.items ≡ []) }
{
    let mut store = Store::new(alloc);
    enter_objects(&mut store, plain)?;
    Ok(Parts {
        at: 0,
        values: Values::new(alloc),
        slots: Slots::new(alloc),
        opened: Opened::new(alloc),
        store,
        left: fuel,
        charge: 0,
        arguments: Vec::new(alloc),
    })
}

/// The opening call.
pub fn begin_main(parts: &mut Parts, plain: &Plain) -> Result<(), Halt>
    requires machine { (machine_of parts.old).values.mine ≡ [] }
    requires none { parts.old.arguments.items ≡ [] }
    requires here { parts.old.at ≡ 0 }
    ensures { ComesQuietly (machine_of parts.old) (machine_of parts.new) result (opening_call (program_of plain.now) (machine_of parts.old)) }
{
    match plain.entry(plain.main) {
        Some(entry) => calls::begin(parts, entry, 0),
        None => Err(Halt::Act(Act::OutsideObject)),
    }
}
