// What each verb answers to files of its own, and to words that are no request.

use crate::calls::{Answer, call, call_quietly, is_answer};
use crate::files::{COPY, WRITES_FF, WRITES_H};
use eir_print::print_eir;
use elvm_sample::sample_program;
use mach_core::MemSink;
use std::alloc::{AllocError, Global};

#[test]
fn modules(rt: HostRuntime) -> Result<(), AllocError> {
    let alloc = rt.alloc();
    let rows: [(&[u8], u8, &[u8], &[u8]); 7] = [
        (WRITES_H, 0, b"H", b""),
        (b"\0asm\x01\0\0", 1, b"", b"elvm: a: Malformed at 7\n"),
        (b"\0asm\x01\0\0\0", 1, b"", b"elvm: a: NoMain\n"),
        // A byte too many.
        (
            b"\0asm\x01\0\0\0\x01\x08\x02\x60\0\0\x60\x01\x7f\0\x02\x0f\x01\x03env\x07putchar\0\x01\x03\x02\x01\0\x07\x08\x01\x04main\0\x01\x0a\x09\x01\x07\0\x41\xc8\0\x10\0\x0b\x0c",
            1,
            b"",
            b"elvm: a: Malformed at 60\n",
        ),
        // A parameter of 32-bit floating point.
        (
            b"\0asm\x01\0\0\0\x01\x05\x01\x60\x01\x7d\0",
            1,
            b"",
            b"elvm: a: Unsupported at 13\n",
        ),
        // A function of 65,537 locals.
        (
            b"\0asm\x01\0\0\0\x01\x04\x01\x60\0\0\x03\x02\x01\0\x0a\x08\x01\x06\x01\x81\x80\x04\x7f\x0b",
            8,
            b"",
            b"elvm: a: too large\n",
        ),
        // Three `nop`s in place of the constant.
        (
            b"\0asm\x01\0\0\0\x01\x08\x02\x60\0\0\x60\x01\x7f\0\x02\x0f\x01\x03env\x07putchar\0\x01\x03\x02\x01\0\x07\x08\x01\x04main\0\x01\x0a\x09\x01\x07\0\x01\x01\x01\x10\0\x0b",
            1,
            b"",
            b"elvm: a: Invalid at 0\n",
        ),
    ];
    for (i, (module, status, out, line)) in rows.iter().enumerate() {
        let answer = call(alloc, &["run", "--target", "wasm", "a"], module, b"")?;
        assert!(rt; is_answer(&answer, *status, out, line), "module {i}");
    }
    Ok(())
}

// A call on a file, without an input, writes these bytes and is done.
fn writes(alloc: Global, words: &[&str], file: &[u8], out: &[u8]) -> Result<bool, AllocError> {
    let answer = call(alloc, words, file, b"")?;
    Ok(is_answer(&answer, 0, out, b""))
}

#[test]
fn lowest_and_highest_bytes(rt: HostRuntime) -> Result<(), AllocError> {
    let alloc = rt.alloc();
    assert!(rt; writes(alloc, &["eir", "a"], WRITES_FF, b"\xff")?);
    let smaller = call(alloc, &["opt", "a"], WRITES_FF, b"")?;
    assert!(rt; writes(alloc, &["eir", "a"], smaller.out.got(), b"\xff")?);
    let run = ["run", "--target", "brainfuck", "a"];
    assert!(rt; writes(alloc, &run, b"-. comment", b"\xff")?);
    assert!(rt; writes(alloc, &run, b",.", b"\0")?);
    Ok(())
}

#[test]
fn usage(rt: HostRuntime) -> Result<(), AllocError> {
    let alloc = rt.alloc();
    let line = b"elvm: usage: elvm VERB [--target T] [--steps N] [--codel S] FILE\n";
    let rows: [&[&str]; 14] = [
        &[],
        &["emit", "a"],
        &["eir"],
        &["c"],
        &["eir", "--codel", "1", "a"],
        &["run", "--target", "piet", "--codel", "0", "a"],
        &["eir", "--steps", "x", "a"],
        &["sample", "20001"],
        &["emit", "--target", "perl", "a"],
        &["opt", "--steps", "5", "a"],
        &["compile"],
        &["compile", "--steps", "5", "a"],
        &["build", "a"],
        &["build", "--target", "perl", "a"],
    ];
    for words in rows {
        let answer = call(alloc, words, COPY, b"ab")?;
        assert!(rt; is_answer(&answer, 2, b"", line), "{words:?}");
    }
    Ok(())
}

/// A sample by its word, with its line, and with what the line says of the Whitespace text: its length, the steps to its
/// end, and one step fewer.
#[derive(Clone, Copy)]
struct Sample {
    blocks: u32,
    word: &'static str,
    line: &'static [u8],
    text_length: usize,
    moves: &'static str,
    fewer: &'static str,
}

// The text that `emit` writes of the printed sample program.
fn emitted_sample(alloc: Global, blocks: u32) -> Result<Answer, AllocError> {
    if blocks > 20000 {
        return Err(AllocError);
    }
    let program = sample_program(alloc, blocks)?;
    let mut file = MemSink::new(alloc, 2_000_000, 1000, Vec::new(alloc))?;
    if print_eir(&program, &mut file).is_err() {
        return Err(AllocError);
    }
    let words = ["emit", "--target", "whitespace", "a"];
    call_quietly(alloc, &words, file.got(), 6_000_000)
}

// The status of a run of a Whitespace text for at most so many steps.
fn status_after(alloc: Global, text: &[u8], steps: &str) -> Result<u8, AllocError> {
    let words = ["run", "--target", "whitespace", "--steps", steps, "a"];
    let run = call_quietly(alloc, &words, text, 100_000)?;
    Ok(run.status)
}

// The line of the sample is that of the row, and its numbers are those of the text that is emitted and of its run.
fn tells(alloc: Global, row: Sample) -> Result<bool, AllocError> {
    let told = call_quietly(alloc, &["sample", row.word], b"", 100)?;
    let text = emitted_sample(alloc, row.blocks)?;
    let text = text.out.got();
    Ok(
        is_answer(&told, 0, row.line, b"")
            && text.len() == row.text_length
            && status_after(alloc, text, row.moves)? == 0
            && status_after(alloc, text, row.fewer)? == 3,
    )
}

#[test]
fn sample_counts(rt: HostRuntime) -> Result<(), AllocError> {
    let alloc = rt.alloc();
    let rows = [
        Sample {
            blocks: 0,
            word: "0",
            line: b"sample 0 size 0 steps 0 bytes 0 last - text 20 moves 3 same\n",
            text_length: 20,
            moves: "3",
            fewer: "2",
        },
        Sample {
            blocks: 3,
            word: "3",
            line: b"sample 3 size 18 steps 15 bytes 3 last 30 text 499 moves 66 same\n",
            text_length: 499,
            moves: "66",
            fewer: "65",
        },
        Sample {
            blocks: 20000,
            word: "20000",
            line: b"sample 20000 size 120000 steps 100000 bytes 20000 last 236 text 5157649 moves 420003 same\n",
            text_length: 5_157_649,
            moves: "420003",
            fewer: "420002",
        },
    ];
    for row in rows {
        assert!(rt; tells(alloc, row)?, "sample {}", row.word);
    }
    Ok(())
}
