// Objects that fail: the shelf and the input at each of their calls, and the output at each room.

ghost use Rattle.std.specs.Prelude.{◌<◌};

use crate::calls::{call_over, call_quietly, is_answer, shelf_of};
use crate::files::{COPY, COPY_IN_C, HELLO, TARGETS, WRITES_FF, WRITES_H};
use elvm_cli::elvm;
use mach_core::{FileFault, MemShelf, MemSink, MemSource, read_file};
use std::alloc::{AllocError, Global};

/// Writes `A` and then asks its input.
const ASKS: &[u8] = b"putc 65\ngetc A\nexit";

// A list of one number.
fn just(alloc: Global, number: u64) -> Result<Vec<u64>, AllocError> {
    let mut list = Vec::new(alloc);
    list.push(number)?;
    Ok(list)
}

// Where the shelf fails at the call of this number, the file can't be read and nothing is written.
fn is_missed(alloc: Global, words: &[&str], number: u64) -> Result<bool, AllocError> {
    let shelf = shelf_of(alloc, HELLO, just(alloc, number)?)?;
    let input = MemSource::new(b"ab".to_vec(alloc)?, 1, Vec::new(alloc));
    let answer = call_over(alloc, words, shelf, input, 100_000)?;
    Ok(is_answer(&answer, 5, b"", b"elvm: cannot read a\n"))
}

// A target's verbs miss a file that the shelf fails to find or to read.
fn misses(alloc: Global, target: &str) -> Result<bool, AllocError> {
    for verb in ["emit", "run", "build"] {
        let words = [verb, "--target", target, "a"];
        if !is_missed(alloc, &words, 1)? || !is_missed(alloc, &words, 2)? {
            return Ok(false);
        }
    }
    Ok(true)
}

#[test]
fn shelves(rt: HostRuntime) -> Result<(), AllocError> {
    let alloc = rt.alloc();
    for verb in ["eir", "opt", "c", "compile"] {
        assert!(rt; is_missed(alloc, &[verb, "a"], 1)?, "{verb}");
        assert!(rt; is_missed(alloc, &[verb, "a"], 2)?, "{verb}");
    }
    for target in TARGETS {
        assert!(rt; misses(alloc, target)?, "{target}");
    }
    Ok(())
}

// Where the input gives so many bytes a call and the call of this number fails, all that was written before it came out.
fn is_cut_off(
    alloc: Global,
    words: &[&str],
    file: &[u8],
    piece: usize,
    number: u64,
    out: &[u8],
) -> Result<bool, AllocError>
    requires { 0 < piece }
{
    let shelf = shelf_of(alloc, file, Vec::new(alloc))?;
    let input = MemSource::new(b"ab".to_vec(alloc)?, piece, just(alloc, number)?);
    let answer = call_over(alloc, words, shelf, input, 100)?;
    Ok(is_answer(&answer, 6, out, b"elvm: cannot read the input\n"))
}

// A program that copies its input is cut off at each call.
fn copies_what_came(alloc: Global, words: &[&str], file: &[u8]) -> Result<bool, AllocError> {
    Ok(
        is_cut_off(alloc, words, file, 1, 1, b"")?
            && is_cut_off(alloc, words, file, 1, 2, b"a")?
            && is_cut_off(alloc, words, file, 1, 3, b"ab")?
            && is_cut_off(alloc, words, file, 2, 2, b"ab")?,
    )
}

#[test]
fn inputs(rt: HostRuntime) -> Result<(), AllocError> {
    let alloc = rt.alloc();
    assert!(rt; copies_what_came(alloc, &["eir", "a"], COPY)?);
    assert!(rt; copies_what_came(alloc, &["c", "a"], COPY_IN_C)?);
    for target in TARGETS {
        let text = call_quietly(alloc, &["emit", "--target", target, "a"], COPY, 2_000_000)?;
        let run = ["run", "--target", target, "a"];
        assert!(rt; copies_what_came(alloc, &run, text.out.got())?, "{target}");
    }
    Ok(())
}

// With an input that holds nothing and fails at its first call, a program that doesn't ask it ends, and one that asks is cut off there.
fn asks_or_ends(
    alloc: Global,
    words: &[&str],
    ends: &[u8],
    asks: &[u8],
) -> Result<bool, AllocError> {
    let shelf = shelf_of(alloc, ends, Vec::new(alloc))?;
    let input = MemSource::new(Vec::new(alloc), 1, just(alloc, 1)?);
    let ended = call_over(alloc, words, shelf, input, 100)?;
    let shelf = shelf_of(alloc, asks, Vec::new(alloc))?;
    let input = MemSource::new(Vec::new(alloc), 1, just(alloc, 1)?);
    let cut = call_over(alloc, words, shelf, input, 100)?;
    let line = b"elvm: cannot read the input\n";
    Ok(is_answer(&ended, 0, b"\xff", b"") && is_answer(&cut, 6, b"A", line))
}

#[test]
fn inputs_that_nothing_asks(rt: HostRuntime) -> Result<(), AllocError> {
    let alloc = rt.alloc();
    assert!(rt; asks_or_ends(alloc, &["eir", "a"], WRITES_FF, ASKS)?);
    for target in TARGETS {
        let emit = ["emit", "--target", target, "a"];
        let ending = call_quietly(alloc, &emit, WRITES_FF, 2_000_000)?;
        let asking = call_quietly(alloc, &emit, ASKS, 2_000_000)?;
        let run = ["run", "--target", target, "a"];
        assert!(rt;
            asks_or_ends(alloc, &run, ending.out.got(), asking.out.got())?,
            "{target}"
        );
    }
    Ok(())
}

// With less room than is written, out got as many bytes as it has room for; with just the room, all.
fn is_cut_anywhere(alloc: Global, words: &[&str], file: &[u8]) -> Result<bool, AllocError> {
    let whole = call_quietly(alloc, words, file, 2_000_000)?;
    let written = whole.out.got();
    for room in 0..written.len() {
        let cut = call_quietly(alloc, words, file, room)?;
        if !is_answer(&cut, 7, &written[..room], b"elvm: cannot write\n") {
            return Ok(false);
        }
    }
    let fitting = call_quietly(alloc, words, file, written.len())?;
    Ok(whole.status == 0 && is_answer(&fitting, 0, written, b""))
}

// A row is the words of a call and its file.
fn is_cut_as_said(alloc: Global, row: &str) -> Result<bool, AllocError> {
    let (words, file) = row.split_once(" => ").unwrap_or((row, ""));
    let words: Vec<&str> = words.split(' ').collect(alloc)?;
    is_cut_anywhere(alloc, words.as_slice(), file.as_bytes())
}

const WRITERS: &str = "\
eir a => putc 72\nputc 101\nputc 108\nputc 108\nputc 111\nexit
| opt a => putc 72\nputc 101\nputc 108\nputc 108\nputc 111\nexit
| emit --target brainfuck a => putc 72
| emit --target whitespace a => putc 72\nputc 101\nputc 108\nputc 108\nputc 111\nexit
| emit --target subleq a => putc 72\nputc 101\nputc 108\nputc 108\nputc 111\nexit
| emit --target wasm a => putc 72\nputc 101\nputc 108\nputc 108\nputc 111\nexit
| run --target brainfuck a => +.+.+.
| run --target whitespace a =>    \t  \t   \n\t\n  \n\n\n
| run --target subleq a => 6 -1 0 7 7 -1 72 0
| run --target piet a => P3 4 2 255\n255 0 0 255 0 0 192 0 0 255 0 255\n0 0 0 255 0 255 255 0 255 255 0 255\n
| sample 3
| c a => int main(void){puts(\"ab\");}
| compile a => int main(void){return 0;}
| build --target subleq a => int main(void){return 0;}";

#[test]
fn rooms(rt: HostRuntime) -> Result<(), AllocError> {
    for row in WRITERS.split("\n| ") {
        assert!(rt; is_cut_as_said(rt.alloc(), row)?, "{row}");
    }
    assert!(rt; is_cut_anywhere(rt.alloc(), &["run", "--target", "wasm", "a"], WRITES_H)?);
    Ok(())
}

#[test]
fn rooms_of_a_picture(rt: HostRuntime) -> Result<(), AllocError> {
    let alloc = rt.alloc();
    assert!(rt; is_cut_anywhere(alloc, &["emit", "--target", "piet", "a"], b"")?);
    Ok(())
}

// Where standard error takes nothing either, the status is the same.
#[test]
fn untold(rt: HostRuntime) -> Result<(), AllocError> {
    let alloc = rt.alloc();
    let mut shelf = MemShelf::new(Vec::new(alloc), 1, Vec::new(alloc));
    let mut input = MemSource::new(Vec::new(alloc), 1, Vec::new(alloc));
    let mut out = MemSink::new(alloc, 10, 10, Vec::new(alloc))?;
    let mut errs = MemSink::new(alloc, 0, 10, Vec::new(alloc))?;
    let status = elvm(alloc, &[], &mut shelf, &mut input, &mut out, &mut errs);
    assert_eq!(rt; status, 2);
    assert!(rt; out.got().is_empty());
    Ok(())
}

// How a text is read whose length may be at most 4.
fn read_short(alloc: Global, text: &[u8]) -> Result<Result<usize, FileFault>, AllocError> {
    let mut shelf = shelf_of(alloc, text, Vec::new(alloc))?;
    Ok(read_file(alloc, &mut shelf, "a", 4).map(|text| text.len()))
}

#[test]
fn whole_texts(rt: HostRuntime) -> Result<(), AllocError> {
    let alloc = rt.alloc();
    assert!(rt; read_short(alloc, b"1234")? == Ok(4));
    assert!(rt; read_short(alloc, b"12345")? == Err(FileFault::TooLarge));
    Ok(())
}
