// A program of code.

ghost use Rattle.std.specs.Prelude.{◌≡◌, ℕ, List, ◌∷◌, None, length, replicate, map, IfOk};
ghost use Rattle.c_store.specs.Shown.{cell_of};
ghost use Rattle.c_rule.specs.Stepping.{FlatCode};
ghost use Rattle.c_plain.specs.Program.{program_of};
ghost use Rattle.c_emitted.specs.Tables.{tables_in};
ghost use Rattle.c_emitted.specs.Emits.{tables_of};
ghost use Rattle.c_tracks.specs.Tracks.{IsCode};
ghost use Rattle.c_linked.specs.Linked.{Tells, IsEmitted};

use c_emitted::Emitter;
use c_plain::{Entry, Plain};
use std::alloc::{AllocError, Global};

/// A function that has got code: the number of its name, and its entry.
#[derive(Clone, Copy)]
pub struct Compiled {
    pub function: u32,
    pub entry: Entry,
}

// A function gets its entry, if it has a place.
fn put(table: &mut Vec<Option<Entry>>, one: Compiled)
    ensures length { length table.new.items ≡ length table.old.items }
    ensures more { (count : ℕ) (compiled : List Compiled) → length table.old.items ≡ count → Tells table.old.items count compiled → Tells table.new.items count (one ∷ compiled) }
{
    let function = one.function as usize;
    if function < table.len() {
        table[function] = Some(one.entry);
    }
}

// So many functions without an entry.
fn no_entries(alloc: Global, count: usize) -> Result<Vec<Option<Entry>>, AllocError>
    ensures { IfOk result (λ table. table.items ≡ replicate count None) }
{
    let mut table = Vec::new(alloc);
    for _index in 0..count {
        table.push(None)?;
    }
    Ok(table)
}

// The functions by number, each with the first entry that it has.
fn table_of(
    alloc: Global,
    count: usize,
    compiled: &[Compiled],
) -> Result<Vec<Option<Entry>>, AllocError>
    ensures { IfOk result (λ table. Tells table.items count compiled.now) }
{
    let mut table = no_entries(alloc, count)?;
    for step in 0..compiled.len() {
        put(&mut table, compiled[compiled.len() - 1 - step]);
    }
    Ok(table)
}

/// The program of code that was emitted, whose functions have got code, and whose `main` has this number.
pub fn link(out: Emitter<'_>, compiled: &[Compiled], main: u32) -> Result<Plain, AllocError>
    ensures code { (f : FlatCode) → IsEmitted out.entry compiled.now f → IfOk result (λ p. IsCode (tables_of out.entry).names (program_of p) f) }
    ensures tables { IfOk result (λ p. tables_in (tables_of out.entry).names (program_of p) ≡ tables_of out.entry) }
    ensures objects { IfOk result (λ p. (program_of p).objects ≡ map (λ cells. map cell_of cells.items) out.entry.objects.items) }
    ensures main { IfOk result (λ p. (program_of p).main ≡ main) }
{
    let functions = table_of(out.alloc, out.names.len(), compiled)?;
    let Emitter {
        code,
        constants,
        kinds,
        lengths,
        bytes,
        literals,
        objects,
        ..
    } = out;
    Ok(Plain {
        instructions: code.instructions(),
        constants,
        kinds,
        lengths,
        bytes,
        functions,
        literals,
        objects,
        main,
    })
}
