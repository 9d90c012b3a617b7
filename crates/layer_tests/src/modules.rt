use mach_core::{MemSink, MemSource, RunEnd, run_machine};
use std::alloc::{AllocError, Global};
use wasm_bin::read_module;
use wasm_run::WasmMachine;
use wasm_valid::validate;

/// What stands before the start and the code of a module: the types [] to [], [i32] to [], [] to [i32] and [i32 i32] to
/// [i32]; `putchar` and `getchar` of the host, functions 0 and 1; `main`, function 2, of the first type, and function 3 of
/// the last; a page of memory, of two at most; a global that can be set, first -2.
const FRONT: &[u8] =
    b"\0asm\x01\0\0\0\x01\x12\x04\x60\0\0\x60\x01\x7F\0\x60\0\x01\x7F\x60\x02\x7F\x7F\x01\x7F\x02\x1D\x02\x03env\x07putchar\0\x01\x03env\x07getchar\0\x02\x03\x03\x02\0\x03\x05\x04\x01\x01\x01\x02\x06\x06\x01\x7F\x01\x41\x7E\x0B\x07\x08\x01\x04main\0\x02";

/// The start function is `main`.
const START: &[u8] = b"\x08\x01\x02";

/// The body of function 3, which gives the sum of its parameters and has a local; and `OK` in the last bytes of the page.
const BEHIND: &[u8] =
    b"\x09\x01\x01\x7F\x20\0\x20\x01\x6A\x0B\x0B\x0A\x01\0\x41\xFE\xFF\x03\x0B\x02OK";

// The bytes of the instruction on the control of a program that a sign stands for, if it stands for one.
fn control_of(sign: u8) -> Option<&'static [u8]> {
    Some(match sign {
        b'!' => b"\0",
        b'{' => b"\x02\x40",
        b'[' => b"\x02\x7F",
        b'(' => b"\x03\x40",
        b'?' => b"\x04\x7F",
        b';' => b"\x04\x40",
        b':' => b"\x05",
        b'}' => b"\x0B",
        b'<' => b"\x0C\0",
        b'^' => b"\x0D\0",
        b'#' => b"\x0E\x02\0\x01\x02",
        b'~' => b"\x0F",
        b'p' => b"\x10\0",
        b'g' => b"\x10\x01",
        b'm' => b"\x10\x02",
        b's' => b"\x10\x03",
        b'\\' => b"\x1A",
        b'|' => b"\x1B",
        b'.' => b"\x01",
        _ => return None,
    })
}

// The bytes of the instruction on values and memory that a sign stands for: a digit and a capital letter are constants.
fn value_of(sign: u8) -> &'static [u8] {
    match sign {
        b'e' => b"\x41\xFC\xFF\x03",
        b'f' => b"\x41\xFD\xFF\x03",
        b'n' => b"\x41\x7F",
        b'w' => b"\x41\xC4\x86\x89\x8A\x04",
        b'x' => b"\x20\0",
        b'y' => b"\x21\0",
        b't' => b"\x22\0",
        b'u' => b"\x20\x01",
        b'v' => b"\x23\0",
        b'z' => b"\x24\0",
        b'+' => b"\x6A",
        b'-' => b"\x6B",
        b'=' => b"\x46",
        b'$' => b"\x36\0\0",
        b'%' => b"\x3B\0\0",
        b'&' => b"\x3A\0\0",
        b'@' => b"\x28\0\0",
        b'a' => b"\x28\0\x01",
        b'h' => b"\x2F\0\0",
        b'i' => b"\x2E\0\0",
        b'b' => b"\x2D\0\xFF\xFF\x03",
        b'c' => b"\x2C\0\0",
        b'k' => b"\x3F\0",
        b'o' => b"\x40\0",
        b'0' => b"\x41\0",
        b'1' => b"\x41\x01",
        b'2' => b"\x41\x02",
        b'3' => b"\x41\x03",
        b'6' => b"\x41\x06",
        b'7' => b"\x41\x07",
        b'8' => b"\x41\x08",
        b'9' => b"\x41\x09",
        b'A' => b"\x41\xC1\0",
        b'B' => b"\x41\xC2\0",
        b'C' => b"\x41\xC3\0",
        b'E' => b"\x41\xC5\0",
        b'H' => b"\x41\xC8\0",
        // No instruction: a text with another sign is no module.
        _ => b"\xFF",
    }
}

// The bytes of the instruction that a sign stands for.
fn instruction_of(sign: u8) -> &'static [u8] {
    match control_of(sign) {
        Some(bytes) => bytes,
        None => value_of(sign),
    }
}

// Adds the code that the signs stand for.
fn push_code(code: &mut Vec<u8>, text: &[u8]) -> Result<(), AllocError> {
    for sign in text {
        code.extend_from_slice(instruction_of(*sign))?;
    }
    Ok(())
}

// Adds the bytes of a module with this start, whose `main` has this code, of at most 100 bytes, and two locals.
fn push_module(bytes: &mut Vec<u8>, start: &[u8], code: &[u8]) -> Result<(), AllocError> {
    if code.len() > 100 {
        return Ok(());
    }
    let size = code.len() as u8;
    let sizes = [0x0A, size + 15, 2, size + 3, 1, 2, 0x7F];
    for piece in [FRONT, start, sizes.as_slice(), code, BEHIND] {
        bytes.extend_from_slice(piece)?;
    }
    Ok(())
}

// A machine that is about to execute the module that the bytes spell, if they spell one.
fn machine_of(alloc: Global, bytes: &[u8]) -> Option<WasmMachine> {
    if bytes.len() > 1000 {
        return None;
    }
    let module = read_module(alloc, bytes).ok()?;
    if module.bodies.len() > 9 {
        return None;
    }
    let valid = validate(alloc, module).ok()?;
    WasmMachine::new(alloc, valid).ok()
}

// A run of a module on so many letters `Z` ends so after at most so many steps. The sink gets what it writes.
fn ends(
    alloc: Global,
    bytes: &[u8],
    letters: usize,
    limit: u64,
    end: RunEnd,
    out: &mut MemSink,
) -> Result<bool, AllocError> {
    let mut input = MemSource::new(vec![in alloc; b'Z'; letters]?, 5000, Vec::new(alloc));
    let Some(mut machine) = machine_of(alloc, bytes) else {
        return Ok(false);
    };
    Ok(run_machine(&mut machine, limit, &mut input, out) == Ok(end))
}

// The bytes of a module with this start, whose `main` has the code that the signs stand for.
fn bytes_of(alloc: Global, start: &[u8], text: &[u8]) -> Result<Vec<u8>, AllocError> {
    let mut code = Vec::new(alloc);
    push_code(&mut code, text)?;
    let mut bytes = Vec::new(alloc);
    push_module(&mut bytes, start, &code)?;
    Ok(bytes)
}

// `main` of this code, and of this start, runs on one letter to this end and writes this.
fn writes(
    alloc: Global,
    start: &[u8],
    text: &[u8],
    limit: u64,
    written: &[u8],
    end: RunEnd,
) -> Result<bool, AllocError> {
    let bytes = bytes_of(alloc, start, text)?;
    let mut out = MemSink::new(alloc, 100, 100, Vec::new(alloc))?;
    let ended = ends(alloc, &bytes, 1, limit, end, &mut out)?;
    Ok(ended && out.got() == written)
}

#[test]
fn programs(rt: HostRuntime) -> Result<(), AllocError> {
    let rows = [
        // A branch takes one value along and drops those between.
        (
            b"A[1B<}pp}".as_slice(),
            100,
            b"BA".as_slice(),
            RunEnd::Ended,
        ),
        // A branch to a loop goes to the `loop`, which is a step again.
        (b"3y(x9+px1-t^}}", 34, b"\x0C\x0B\x0A", RunEnd::Ended),
        (b"3y(x9+px1-t^}}", 33, b"\x0C\x0B\x0A", RunEnd::Limit),
        // `return` ends the call.
        (b"{Ap~}!}", 100, b"A", RunEnd::Ended),
        // A false `if` without `else` goes to its `end`, which is a step.
        (b"0;!}}", 4, b"", RunEnd::Ended),
        (b"0;!}}", 3, b"", RunEnd::Limit),
        // `else` reached from above leaves the block, and its `end` is no step.
        (b"1?A:B}p}", 6, b"A", RunEnd::Ended),
        (b"0?A:B}p}", 6, b"B", RunEnd::Ended),
        (b"{{{0#}Ap}Bp}Cp}", 100, b"ABC", RunEnd::Ended),
        (b"{{{1#}Ap}Bp}Cp}", 100, b"BC", RunEnd::Ended),
        (b"{{{n#}Ap}Bp}Cp}", 100, b"C", RunEnd::Ended),
        (b"AB2-spgp}", 100, b"\x81Z", RunEnd::Ended),
        // `main` is the first of the calls, and one that finds 4096 of them meets the fault.
        (b"m}", 4095, b"", RunEnd::Limit),
        (b"m}", 4096, b"", RunEnd::Fault(5)),
        (b"!}", 1, b"", RunEnd::Fault(1)),
        (b"AB0|pAB7|pvE+zvp1\\.up}", 100, b"BAC\0", RunEnd::Ended),
    ];
    for (i, (text, limit, written, end)) in rows.iter().enumerate() {
        assert!(rt;
            writes(rt.alloc(), b"", text, *limit, written, *end)?,
            "row {i}"
        );
    }
    Ok(())
}

#[test]
fn memory_and_start(rt: HostRuntime) -> Result<(), AllocError> {
    let none = b"".as_slice();
    let rows = [
        // The memory, and its last bytes.
        (
            none,
            b"ew$0bpe@p}".as_slice(),
            b"AD".as_slice(),
            RunEnd::Ended,
        ),
        (
            none,
            b"7n%7in=p8w&8cp7cn=p7h6+p}",
            b"\x01\x44\x01\x05",
            RunEnd::Ended,
        ),
        (none, b"f1$}", b"", RunEnd::Fault(2)),
        // The sum of the address and its offset isn't cut to 32 bits.
        (none, b"na\\}", b"", RunEnd::Fault(2)),
        // The second page is the last.
        (none, b"1op1opkp0op}", b"\x01\xFF\x02\x02", RunEnd::Ended),
        // A segment stands in the last bytes.
        (none, b"0bp}", b"K", RunEnd::Ended),
        // The start function comes before `main`.
        (START, b"Hp}", b"HH", RunEnd::Ended),
    ];
    for (i, (start, text, written, end)) in rows.iter().enumerate() {
        assert!(rt;
            writes(rt.alloc(), start, text, 100, written, *end)?,
            "row {i}"
        );
    }
    Ok(())
}

/// Copies the input, and the 0 at its end.
const COPIES: &[u8] = b"\x03\x40\x10\x01\x22\0\x10\0\x20\0\x0D\0\x0B\x0B";

// A copy loop has written so many bytes after so many steps on 9000 letters, and has ended or not.
fn copies(alloc: Global, limit: u64, count: usize, end: RunEnd) -> Result<bool, AllocError> {
    let mut bytes = Vec::new(alloc);
    push_module(&mut bytes, b"", COPIES)?;
    let mut out = MemSink::new(alloc, 10000, 5000, Vec::new(alloc))?;
    let ended = ends(alloc, &bytes, 9000, limit, end, &mut out)?;
    Ok(ended && out.got().len() == count)
}

#[test]
fn more_is_copied_than_is_held_at_once(rt: HostRuntime) -> Result<(), AllocError> {
    // Each byte takes six steps, the 0 at the end of the input too, and the ends of the loop and the call follow.
    for (limit, count, end) in [
        (54008, 9001, RunEnd::Ended),
        (54007, 9001, RunEnd::Limit),
        (53998, 9000, RunEnd::Limit),
        (53997, 8999, RunEnd::Limit),
    ] {
        assert!(rt; copies(rt.alloc(), limit, count, end)?, "{limit}");
    }
    Ok(())
}
