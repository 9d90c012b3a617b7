// Pieces of Brainfuck on words of cells, run as whole programs.

use bf_lang::{BfMachine, read_bf};
use bf_tape::Frag;
use bf_word::{add, dec, equal, flip, less, set, sub};
use mach_core::{MemSink, MemSource, Put, RunEnd, run_machine};
use std::alloc::{AllocError, Global};
use word24::Word;

/// What is done with the words at cells 0 and 3, and the flag at cell 6.
#[derive(Clone, Copy)]
enum Act {
    Add,
    Sub,
    Flip,
    Dec,
    Less,
    Equal,
    Copy,
}

// Does it.
fn do_act(piece: &mut Frag, act: Act) -> Result<(), AllocError> {
    match act {
        Act::Add => add(piece, 0, 3),
        Act::Sub => sub(piece, 0, 3),
        Act::Flip => flip(piece, 0),
        Act::Dec => dec(piece, 0),
        Act::Less => less(piece, 0, 3, 6),
        Act::Equal => equal(piece, 0, 3, 6),
        Act::Copy => piece.copy(0, 6, 9),
    }
}

// Two words are set and worked on; seven cells are written, and one that is to work in.
fn work(piece: &mut Frag, first: u32, second: u32, act: Act) -> Result<(), AllocError> {
    set(piece, 0, Word::wrap(first as u64))?;
    set(piece, 3, Word::wrap(second as u64))?;
    do_act(piece, act)?;
    for cell in 0..7 {
        piece.write(cell)?;
    }
    piece.write(123)
}

// A sink gets the text of a piece, and has room for it.
fn is_sent(piece: &Frag, out: &mut MemSink) -> bool {
    let mut put = Put::new();
    put.flush(out)
        .and(piece.send(&mut put, out))
        .and(put.flush(out))
        .is_ok()
}

// A sink gets what a text of Brainfuck writes, until its end.
fn is_run(alloc: Global, text: &[u8], out: &mut MemSink) -> Result<bool, AllocError> {
    if text.len() > 65536 {
        return Ok(false);
    }
    let Ok(program) = read_bf(alloc, text) else {
        return Ok(false);
    };
    let mut machine = BfMachine::new(alloc, program)?;
    let mut source = MemSource::new(Vec::new(alloc), 1, Vec::new(alloc));
    let end = run_machine(&mut machine, 10_000_000, &mut source, out);
    Ok(end == Ok(RunEnd::Ended))
}

// Two words, worked on, come to this.
fn comes_to(
    alloc: Global,
    first: u32,
    second: u32,
    act: Act,
    wanted: &[u8],
) -> Result<bool, AllocError> {
    let mut piece = Frag::new(alloc);
    work(&mut piece, first, second, act)?;
    let mut text = MemSink::new(alloc, 65536, 7, Vec::new(alloc))?;
    let mut out = MemSink::new(alloc, 64, 7, Vec::new(alloc))?;
    let runs = is_sent(&piece, &mut text) && is_run(alloc, text.got(), &mut out)?;
    Ok(runs && out.got() == wanted)
}

#[test]
fn words(rt: HostRuntime) -> Result<(), AllocError> {
    let alloc = rt.alloc();
    assert!(rt; comes_to(alloc, 16777215, 1, Act::Add, b"\0\0\0\x01\0\0\0\0")?);
    assert!(rt; comes_to(alloc, 0, 1, Act::Sub, b"\xff\xff\xff\x01\0\0\0\0")?);
    assert!(rt; comes_to(alloc, 1, 0, Act::Flip, b"\xfe\xff\xff\0\0\0\0\0")?);
    assert!(rt; comes_to(alloc, 0, 0, Act::Dec, b"\xff\xff\xff\0\0\0\0\0")?);
    assert!(rt; comes_to(alloc, 16777215, 1, Act::Less, b"\xff\xff\xff\x01\0\0\0\0")?);
    assert!(rt; comes_to(alloc, 1, 65536, Act::Less, b"\x01\0\0\0\0\x01\x01\0")?);
    assert!(rt; comes_to(alloc, 1, 1, Act::Equal, b"\x01\0\0\x01\0\0\x01\0")?);
    assert!(rt; comes_to(alloc, 1, 257, Act::Equal, b"\x01\0\0\x01\x01\0\0\0")?);
    assert!(rt; comes_to(alloc, 5, 0, Act::Copy, b"\x05\0\0\0\0\0\x05\0")?);
    Ok(())
}
