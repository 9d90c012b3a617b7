//! Printing a program.

ghost use Rattle.std.specs.Prelude.{◌≡◌, ◌<◌, ◌≤◌, ◌^◌, ◌++◌, ◌∷◌, [], length, map, codes, OnOk, OnErr};
ghost use Rattle.std.specs.Io.KnownBytes.{Appends};
ghost use Rattle.mach_core.specs.Outside.{HasCause};
ghost use Rattle.mach_core.specs.Put.{GotPrefix};
ghost use Rattle.eir_print.specs.Printed.{op_line, word_line, label_line, start_lines, block_lines, blocks_lines, header_lines, text_of, printed};
ghost use Rattle.mach_core.specs.Puts.{Puts};

use crate::line::put_op;
use crate::words::start_label;
use eir_core::{Op, Program};
use itoa::Buffer;
use mach_core::{Failed, Put, Sink};
use word24::Word;

// Puts the lines of operations.
fn put_ops<O: Sink>(ops: &[Op], put: &mut Put, out: &mut O) -> Result<(), Failed>
    ensures { Puts (record { got = O.got out.old; faults = O.faults out.old; held = put.old })
        (record { got = O.got out.new; faults = O.faults out.new; held = put.new })
        (text_of (map op_line ops.now)) result }
{
    for op in ops {
        put_op(*op, put, out)?;
    }
    Ok(())
}

// Puts the label `main`, if the block of this number comes first.
fn put_start<O: Sink>(start: u32, k: u32, put: &mut Put, out: &mut O) -> Result<(), Failed>
    ensures { Puts (record { got = O.got out.old; faults = O.faults out.old; held = put.old })
        (record { got = O.got out.new; faults = O.faults out.new; held = put.new })
        (text_of (start_lines start k)) result }
{
    let main = start_label(start, k);
    put.pieces(&[main], out)
}

// Puts the label of the block of this number.
fn put_label<O: Sink>(k: u32, put: &mut Put, out: &mut O) -> Result<(), Failed>
    ensures { Puts (record { got = O.got out.old; faults = O.faults out.old; held = put.old })
        (record { got = O.got out.new; faults = O.faults out.new; held = put.new })
        (text_of (label_line k ∷ [])) result }
{
    let mut buffer = Buffer::new();
    let number = buffer.format(k).as_bytes();
    put.pieces(&[b"b", number, b":\n"], out)
}

// Puts the lines of the block of this number, in a program that starts at block `start`.
fn put_block<O: Sink>(
    start: u32,
    k: u32,
    ops: &[Op],
    put: &mut Put,
    out: &mut O,
) -> Result<(), Failed>
    ensures { Puts (record { got = O.got out.old; faults = O.faults out.old; held = put.old })
        (record { got = O.got out.new; faults = O.faults out.new; held = put.new })
        (text_of (block_lines start k ops.now)) result }
{
    put_start(start, k, put, out)?;
    put_label(k, put, out)?;
    put_ops(ops, put, out)
}

// Puts the lines of the blocks.
fn put_blocks<O: Sink>(p: &Program, put: &mut Put, out: &mut O) -> Result<(), Failed>
    ensures { Puts (record { got = O.got out.old; faults = O.faults out.old; held = put.old })
        (record { got = O.got out.new; faults = O.faults out.new; held = put.new })
        (text_of (blocks_lines p.now.start 0 p.now.blocks)) result }
{
    let count = p.block_count();
    for k in 0..count {
        let Some(ops) = p.block(k) else {
            unreachable!()
        };
        put_block(p.start(), k, ops, put, out)?;
    }
    put_start(p.start(), count, put, out)
}

// Puts the line of a data word.
fn put_word<O: Sink>(word: Word, put: &mut Put, out: &mut O) -> Result<(), Failed>
    ensures { Puts (record { got = O.got out.old; faults = O.faults out.old; held = put.old })
        (record { got = O.got out.new; faults = O.faults out.new; held = put.new })
        (text_of (word_line word ∷ [])) result }
{
    let mut buffer = Buffer::new();
    let number = buffer.format(word.get()).as_bytes();
    put.pieces(&[b"\t.long ", number, b"\n"], out)
}

// Puts the lines of data words.
fn put_words<O: Sink>(words: &[Word], put: &mut Put, out: &mut O) -> Result<(), Failed>
    ensures { Puts (record { got = O.got out.old; faults = O.faults out.old; held = put.old })
        (record { got = O.got out.new; faults = O.faults out.new; held = put.new })
        (text_of (map word_line words.now)) result }
{
    for word in words {
        put_word(*word, put, out)?;
    }
    Ok(())
}

// The line `.data`, if there are words.
fn data_header(words: &[Word]) -> &'static [u8]
    ensures { result.now ≡ text_of (header_lines words.now) }
{
    match words {
        [] => b"",
        _ => b".data\n",
    }
}

// Puts the line `.data`, if there are words.
fn put_header<O: Sink>(words: &[Word], put: &mut Put, out: &mut O) -> Result<(), Failed>
    ensures { Puts (record { got = O.got out.old; faults = O.faults out.old; held = put.old })
        (record { got = O.got out.new; faults = O.faults out.new; held = put.new })
        (text_of (header_lines words.now)) result }
{
    let header = data_header(words);
    put.pieces(&[header], out)
}

// Puts the lines of a program.
fn put_program<O: Sink>(p: &Program, put: &mut Put, out: &mut O) -> Result<(), Failed>
    ensures { Puts (record { got = O.got out.old; faults = O.faults out.old; held = put.old })
        (record { got = O.got out.new; faults = O.faults out.new; held = put.new })
        (printed p.now) result }
{
    put.pieces(&[b".text\n"], out)?;
    put_blocks(p, put, out)?;
    put_header(p.words(), put, out)?;
    put_words(p.words(), put, out)
}

/// Writes the text of a program: out gets exactly this text. It takes no memory.
///
/// `Failed` comes only from out, which then got a prefix of the text.
pub fn print_eir<O: Sink>(p: &Program, out: &mut O) -> Result<(), Failed>
    ensures text { OnOk result (Appends (O.got out.old) (O.got out.new) (printed p.now)) }
    ensures prefix { OnErr result (GotPrefix (O.got out.old) (O.got out.new) (printed p.now)) }
    ensures cause { HasCause (O.faults out.old) (O.faults out.new) result }
{
    let mut put = Put::new();
    put_program(p, &mut put, out)?;
    put.flush(out)
}
