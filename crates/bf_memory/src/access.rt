// The way to a record and back.

ghost use Rattle.std.specs.Prelude.{◌≡◌, IfOk, OnOk, OnErr};
ghost use Rattle.bf_tape.specs.Piece.{joined};
ghost use Rattle.bf_memory.specs.MemoryCode.{outward_code, homeward_code, access_code};
ghost use Rattle.bf_memory.specs.Walk.{GoesOut, GoesHome, Accesses};

use bf_tape::Frag;
use bf_word::{append, aside, clear_word, lower_once, move_word};
use std::alloc::AllocError;

// One turn of the walk out: what is carried goes to the next record, and the address is counted down there. The walk goes on
// from there where it wasn't 0.
fn outward(f: &Frag) -> Result<Frag, AllocError>
    ensures home { IfOk result (λ body. body.cell ≡ 0) }
    ensures code { IfOk result (λ body. body ≡ record { commands = outward_code; cell = 0 }) }
    ensures turn { IfOk result (λ body. GoesOut body) }
{
    let mut body = f.begin(0);
    body.add_const(14, 255)?;
    move_word(&mut body, 0, 22)?;
    move_word(&mut body, 10, 32)?;
    body.move_to(13, 35)?;
    lower_once(&mut body, 22)?;
    body.add_const(36, 1)?;
    body.drain(31, 36)?;
    body.add_const(37, 1)?;
    body.goto(0)?;
    Ok(body)
}

// One turn of the walk home: the mark goes, and the value comes one record nearer.
fn homeward(f: &Frag) -> Result<Frag, AllocError>
    ensures home { IfOk result (λ body. body.cell ≡ 0) }
    ensures code { IfOk result (λ body. body ≡ record { commands = homeward_code; cell = 0 }) }
    ensures turn { IfOk result (λ body. GoesHome body) }
{
    let mut body = f.begin(0);
    body.clear(37)?;
    move_word(&mut body, 32, 10)?;
    body.goto(0)?;
    Ok(body)
}

/// From record -1, where an address is counted down, to the record that it counts to; there one piece for each side; and home
/// with the value.
pub(crate) fn access(f: &mut Frag, high: Frag, low: Frag) -> Result<(), AllocError>
    requires high { high.cell ≡ 0 }
    requires low { low.cell ≡ 0 }
    ensures code { OnOk result (f.new ≡ joined f.old (access_code f.old.cell high.commands low.commands) 151) }
    ensures effect { OnOk result (Accesses f.old f.new high low) }
    ensures err { OnErr result (f.new ≡ f.old) }
{
    let out = outward(f)?;
    let home = homeward(f)?;
    let mut piece = aside(f);
    piece.add_const(150, 1)?;
    piece.rename(14);
    piece.shift_while(14, 22, true, out)?;
    clear_word(&mut piece, 0)?;
    piece.if_else(13, 3, high, low)?;
    piece.rename(25);
    piece.shift_while(37, 22, false, home)?;
    piece.rename(151);
    append(f, &piece)
}
