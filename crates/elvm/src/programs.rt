// EIR programs, by themselves and as a text in each target, and what `opt` makes of them: their sizes, their bounds, and long copies.

use crate::calls::{call, call_quietly, is_answer};
use crate::rows::first_failing_under;
use elvm_rows::programs::PROGRAMS;
use std::alloc::{AllocError, Global};

/// The machines of words.
const ON_WORDS: &str =
    "eir --steps 100000000 a ; opt a | eir --steps 100000000 a ; emit --target whitespace a | run --target whitespace --steps 100000000 a ; opt a | emit --target whitespace a | run --target whitespace --steps 100000000 a ; emit --target subleq a | run --target subleq --steps 100000000 a ; opt a | emit --target subleq a | run --target subleq --steps 100000000 a ; emit --target wasm a | run --target wasm --steps 100000000 a ; opt a | emit --target wasm a | run --target wasm --steps 100000000 a < ab";

/// Brainfuck.
const ON_BRAINFUCK: &str =
    "emit --target brainfuck a | run --target brainfuck --steps 100000000 a ; opt a | emit --target brainfuck a | run --target brainfuck --steps 100000000 a < ab";

/// Piet.
const ON_PIET: &str =
    "emit --target piet a | run --target piet --steps 100000000 a ; opt a | emit --target piet a | run --target piet --steps 100000000 a < ab";

#[test]
fn on_machines_of_words(rt: HostRuntime) -> Result<(), AllocError> {
    assert_eq!(rt; first_failing_under(rt.alloc(), ON_WORDS, PROGRAMS)?, None);
    Ok(())
}

#[test]
fn on_brainfuck(rt: HostRuntime) -> Result<(), AllocError> {
    assert_eq!(rt;
        first_failing_under(rt.alloc(), ON_BRAINFUCK, PROGRAMS)?,
        None
    );
    Ok(())
}

#[test]
fn on_piet(rt: HostRuntime) -> Result<(), AllocError> {
    assert_eq!(rt; first_failing_under(rt.alloc(), ON_PIET, PROGRAMS)?, None);
    Ok(())
}

// A front, a line so often behind it, and an end.
fn lines(
    alloc: Global,
    front: &[u8],
    line: &[u8],
    count: u32,
    end: &[u8],
) -> Result<Vec<u8>, AllocError> {
    let mut file = front.to_vec(alloc)?;
    for _ in 0..count {
        file.extend_from_slice(line)?;
    }
    file.extend_from_slice(end)?;
    Ok(file)
}

// What `emit` answers for a program of so many data words, a block and an operation: whether it is emitted, if it isn't too
// large.
fn is_emitted(alloc: Global, target: &str, words: u32) -> Result<Option<bool>, AllocError> {
    let file = lines(alloc, b".data\n", b".long 0\n", words, b".text\nexit\n")?;
    let answer = call(
        alloc,
        &["emit", "--target", target, "a"],
        file.as_slice(),
        b"",
    )?;
    if is_answer(&answer, 8, b"", b"elvm: a: too large\n") {
        return Ok(None);
    }
    Ok(Some(answer.status == 0 && !answer.out.got().is_empty()))
}

// The limits are 65,536, 65,536, 4,096 and 16,384, of which a block and an operation take two.
#[test]
fn sizes(rt: HostRuntime) -> Result<(), AllocError> {
    for (target, most) in [
        ("subleq", 65_534),
        ("wasm", 65_534),
        ("piet", 4_094),
        ("brainfuck", 16_382),
    ] {
        let largest = is_emitted(rt.alloc(), target, most)?;
        assert!(rt; largest == Some(true), "{target}");
        let larger = is_emitted(rt.alloc(), target, most.saturating_add(1))?;
        assert!(rt; larger.is_none(), "{target}");
    }
    Ok(())
}

// A program of size 4,097 is too large for Piet, and what `opt` makes of it is not.
fn is_small_enough_by_opt(alloc: Global) -> Result<bool, AllocError> {
    let file = lines(alloc, b"", b"mov A, 0\n", 4095, b"exit")?;
    let emit: &[&str] = &["emit", "--target", "piet", "a"];
    let large = call(alloc, emit, file.as_slice(), b"")?;
    let smaller = call(alloc, &["opt", "a"], file.as_slice(), b"")?;
    let drawn = call(alloc, emit, smaller.out.got(), b"")?;
    let left = b".text\nmain:\nb0:\n\tmov A, 0\n\texit\n";
    Ok(
        is_answer(&large, 8, b"", b"elvm: a: too large\n")
            && is_answer(&smaller, 0, left, b"")
            && drawn.status == 0,
    )
}

// Where the output has little room, it got a front of what `opt` writes.
fn gets_a_front(alloc: Global) -> Result<bool, AllocError> {
    let cut = call_quietly(alloc, &["opt", "a"], b"putc 72\nexit", 9)?;
    Ok(is_answer(&cut, 7, b".text\nmai", b"elvm: cannot write\n"))
}

#[test]
fn smaller_programs(rt: HostRuntime) -> Result<(), AllocError> {
    assert!(rt; is_small_enough_by_opt(rt.alloc())?);
    assert!(rt; gets_a_front(rt.alloc())?);
    Ok(())
}

// A file's text in a target ends within so many steps.
fn ends_within(alloc: Global, target: &str, steps: &str, file: &[u8]) -> Result<bool, AllocError> {
    let text = call(alloc, &["emit", "--target", target, "a"], file, b"")?;
    let words = ["run", "--target", target, "--steps", steps, "a"];
    let run = call(alloc, &words, text.out.got(), b"")?;
    Ok(text.status == 0 && run.status == 0)
}

// A file of so many blocks, of which each goes to the next by a register.
fn chain(alloc: Global, blocks: u32) -> Result<Vec<u8>, AllocError> {
    let mut file = Vec::new(alloc);
    for next in 1..=blocks {
        let block = format!(in alloc; "mov A, {next}\njmp A\n")?;
        file.extend_from_slice(block.as_bytes())?;
    }
    Ok(file)
}

// Emitted texts end within the sharp bound, which counts the size of the program once.
#[test]
fn sharp_bounds(rt: HostRuntime) -> Result<(), AllocError> {
    let alloc = rt.alloc();
    // Of size 3, with two steps.
    for (target, steps) in [("whitespace", "2560"), ("subleq", "57344")] {
        assert!(rt;
            ends_within(alloc, target, steps, b"mov A, 99\njmp A")?,
            "{target}"
        );
    }
    // Of size 131,070, with 87,380 steps.
    let file = chain(alloc, 43_690)?;
    assert!(rt; ends_within(alloc, "whitespace", "413836288", file.as_slice())?);
    Ok(())
}

// A run on 9,000 letters stands so after these steps, and has written so many bytes.
fn copies(
    alloc: Global,
    words: &[&str],
    file: &[u8],
    status: u8,
    count: usize,
) -> Result<bool, AllocError> {
    let letters = lines(alloc, b"", b"x", 9000, b"")?;
    let answer = call(alloc, words, file, letters.as_slice())?;
    let out = answer.out.got();
    Ok(answer.status == status && out.len() == count && out.iter().all(|byte| *byte == b'x'))
}

// More is taken and written than is held at once: four steps a byte, and four at the end.
#[test]
fn long_copies(rt: HostRuntime) -> Result<(), AllocError> {
    for (steps, status, count) in [("35998", 3, 8999), ("36002", 3, 9000), ("36003", 0, 9000)] {
        let words = ["eir", "--steps", steps, "a"];
        assert!(rt;
            copies(rt.alloc(), &words, crate::files::COPY, status, count)?,
            "{steps}"
        );
    }
    let words = ["run", "--target", "subleq", "--steps", "9999", "a"];
    let zeros = call(rt.alloc(), &words, b"0 -1 3", b"")?;
    assert!(rt; zeros.status == 3 && zeros.out.got().len() == 5000);
    Ok(())
}
