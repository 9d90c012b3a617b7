// Loads and stores.

ghost use Rattle.std.specs.Prelude.{◌≡◌, ◌<◌, ◌≤◌, IfOk, OnOk, OnErr};
ghost use Rattle.bf_tape.specs.Piece.{joined};
ghost use Rattle.bf_memory.specs.Row.{Loads, Stores};
ghost use Rattle.bf_memory.specs.MemoryCode.{fetch_code, keep_code, load_code, store_code};
ghost use Rattle.bf_memory.specs.Walk.{Fetches, Keeps};

use crate::access::access;
use crate::seat::seat;
use bf_tape::Frag;
use bf_word::{append, aside, clear_word, dup_word, move_word};
use std::alloc::AllocError;

// At a record: the value becomes one of its words.
fn fetch(f: &Frag, word: u32) -> Result<Frag, AllocError>
    requires low { 16 ≤ word }
    requires high { word ≤ 19 }
    ensures home { IfOk result (λ arm. arm.cell ≡ 0) }
    ensures code { IfOk result (λ arm. arm ≡ record { commands = fetch_code word; cell = 0 }) }
    ensures effect { IfOk result (λ arm. Fetches arm word) }
{
    let mut arm = f.begin(0);
    dup_word(&mut arm, word, 10, 4)?;
    arm.goto(0)?;
    Ok(arm)
}

// At a record: one of its words becomes the value.
fn keep(f: &Frag, word: u32) -> Result<Frag, AllocError>
    requires low { 16 ≤ word }
    requires high { word ≤ 19 }
    ensures home { IfOk result (λ arm. arm.cell ≡ 0) }
    ensures code { IfOk result (λ arm. arm ≡ record { commands = keep_code word; cell = 0 }) }
    ensures effect { IfOk result (λ arm. Keeps arm word) }
{
    let mut arm = f.begin(0);
    clear_word(&mut arm, word)?;
    move_word(&mut arm, 10, word)?;
    arm.goto(0)?;
    Ok(arm)
}

/// Sets a word of the frame to the word of memory at an address, which is a word of the frame too. Nothing else changes.
pub fn load(f: &mut Frag, addr: u32, dst: u32) -> Result<(), AllocError>
    requires addr { addr < 108 }
    requires dst { dst < 108 }
    ensures code { OnOk result (f.new ≡ joined f.old (load_code f.old.cell addr dst) 148) }
    ensures effect { OnOk result (Loads f.old f.new addr dst) }
    ensures err { OnErr result (f.new ≡ f.old) }
{
    let high = fetch(f, 19)?;
    let low = fetch(f, 16)?;
    let mut piece = aside(f);
    seat(&mut piece, addr)?;
    access(&mut piece, high, low)?;
    clear_word(&mut piece, dst)?;
    move_word(&mut piece, 146, dst)?;
    append(f, &piece)
}

/// Sets the word of memory at an address, which is a word of the frame, to another word of the frame. Nothing else changes.
pub fn store(f: &mut Frag, addr: u32, src: u32) -> Result<(), AllocError>
    requires addr { addr < 108 }
    requires src { src < 108 }
    ensures code { OnOk result (f.new ≡ joined f.old (store_code f.old.cell addr src) 151) }
    ensures effect { OnOk result (Stores f.old f.new addr src) }
    ensures err { OnErr result (f.new ≡ f.old) }
{
    let high = keep(f, 19)?;
    let low = keep(f, 16)?;
    let mut piece = aside(f);
    seat(&mut piece, addr)?;
    dup_word(&mut piece, src, 146, 113)?;
    access(&mut piece, high, low)?;
    append(f, &piece)
}
