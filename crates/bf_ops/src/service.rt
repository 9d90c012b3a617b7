// What is asked of the memory, served at the end of a turn.

ghost use Rattle.std.specs.Prelude.{◌≡◌, OnOk, OnErr};
ghost use Rattle.bf_tape.specs.Piece.{joined};
ghost use Rattle.bf_ops.specs.Ask.{flag_of, give_code, gives_code, serve_load_code, serve_store_code, serve_code, Gives, GivesAny, Serves, ServesLoads, ServesStores};

use crate::place::cell_of;
use bf_memory::{load as load_word, store as store_word};
use bf_tape::Frag;
use bf_word::{append, aside, clear_word, move_word};
use eir_core::Reg;
use std::alloc::AllocError;

/// An address, and the word that comes from there: the last cells of A's counter.
pub(crate) const ADDRESS: u32 = 107;

/// A word that goes to memory: the last cells of C's counter.
pub(crate) const VALUE: u32 = 87;

/// The cell that says that a load is asked for.
pub(crate) const LOADS: u32 = 46;

/// The cell that says that a store is asked for.
pub(crate) const STORES: u32 = 47;

// A register whose flag is raised gets the word.
fn give(f: &mut Frag, reg: Reg) -> Result<(), AllocError>
    ensures code { OnOk result (f.new ≡ joined f.old (give_code f.old.cell reg) (flag_of reg)) }
    ensures effect { OnOk result (Gives f.old f.new reg) }
{
    let cell = cell_of(reg);
    let mut body = f.begin(cell + 6);
    clear_word(&mut body, cell)?;
    move_word(&mut body, ADDRESS, cell)?;
    body.goto(cell + 6)?;
    f.times(cell + 6, body)?;
    Ok(())
}

// The one register whose flag is raised gets the word. What is added up to an error is left.
fn give_any(f: &mut Frag) -> Result<(), AllocError>
    ensures code { OnOk result (f.new ≡ joined f.old (gives_code f.old.cell) (flag_of Reg.BP)) }
    ensures effect { OnOk result (GivesAny f.old f.new) }
{
    give(f, Reg::A)?;
    give(f, Reg::B)?;
    give(f, Reg::C)?;
    give(f, Reg::D)?;
    give(f, Reg::SP)?;
    give(f, Reg::BP)?;
    Ok(())
}

// A load that is asked for is served.
fn serve_load(f: &mut Frag) -> Result<(), AllocError>
    ensures code { OnOk result (f.new ≡ joined f.old (serve_load_code f.old.cell) 46) }
    ensures effect { OnOk result (ServesLoads f.old f.new) }
{
    let mut body = f.begin(LOADS);
    load_word(&mut body, ADDRESS, ADDRESS)?;
    give_any(&mut body)?;
    body.goto(LOADS)?;
    f.times(LOADS, body)?;
    Ok(())
}

// A store that is asked for is served.
fn serve_store(f: &mut Frag) -> Result<(), AllocError>
    ensures code { OnOk result (f.new ≡ joined f.old (serve_store_code f.old.cell) 47) }
    ensures effect { OnOk result (ServesStores f.old f.new) }
{
    let mut body = f.begin(STORES);
    store_word(&mut body, ADDRESS, VALUE)?;
    clear_word(&mut body, ADDRESS)?;
    clear_word(&mut body, VALUE)?;
    body.goto(STORES)?;
    f.times(STORES, body)?;
    Ok(())
}

/// What is asked of the memory is served. Where nothing is asked, nothing changes.
pub fn serve(f: &mut Frag) -> Result<(), AllocError>
    ensures code { OnOk result (f.new ≡ joined f.old (serve_code f.old.cell) 47) }
    ensures effect { OnOk result (Serves f.old f.new) }
    ensures err { OnErr result (f.new ≡ f.old) }
{
    let mut piece = aside(f);
    serve_load(&mut piece)?;
    serve_store(&mut piece)?;
    append(f, &piece)
}
