// How deep a C text may nest, and how long it may be.

use crate::calls::{Answer, call, is_answer};
use elvm_rows::c_units::NESTS;
use std::alloc::{AllocError, Global};

// A part of a text so often.
fn push_often(text: &mut String, part: &str, count: u32) -> Result<(), AllocError> {
    for _ in 0..count {
        text.push_str(part)?;
    }
    Ok(())
}

// A text of parts, between which stands `~`, and every second of which stands there so often.
fn nested(alloc: Global, parts: &str, count: u32) -> Result<String, AllocError> {
    let mut text = String::new(alloc);
    for (i, part) in parts.split('~').enumerate() {
        push_often(&mut text, part, if i % 2 == 0 { 1 } else { count })?;
    }
    Ok(text)
}

// The text of these parts, nested so often, is answered so.
fn is_told(
    alloc: Global,
    parts: &str,
    count: u32,
    status: u8,
    told: &str,
) -> Result<bool, AllocError> {
    let text = nested(alloc, parts, count)?;
    let answer = call(alloc, &["c", "a"], text.as_bytes(), b"")?;
    Ok(is_answer(&answer, status, b"", told.as_bytes()))
}

// A row is a text in its parts, how often it may be nested at most, and how it is answered then. One deeper is too deep.
fn holds(alloc: Global, row: &str) -> Result<bool, AllocError> {
    let Some((parts, rest)) = row.split_once(" => ") else {
        return Ok(false);
    };
    let (most, told) = rest.split_once(" => ").unwrap_or((rest, ""));
    let Ok(most) = most.parse::<u32>() else {
        return Ok(false);
    };
    let status = if told.is_empty() { 0 } else { 1 };
    Ok(
        is_told(alloc, parts, most, status, told)?
            && is_told(
                alloc,
                parts,
                most.saturating_add(1),
                8,
                "elvm: a: too large\n",
            )?,
    )
}

#[test]
fn nesting(rt: HostRuntime) -> Result<(), AllocError> {
    for row in NESTS.split("\n| ") {
        assert!(rt; holds(rt.alloc(), row)?, "{row}");
    }
    Ok(())
}

// The answer to an object with 499,997 values, a comma behind each, and this text behind the last comma.
fn answer_to_list(alloc: Global, last: &str) -> Result<Answer, AllocError> {
    let mut text = String::from_str(alloc, "int a={")?;
    push_often(&mut text, "1,", 499_997)?;
    text.push_str(last)?;
    call(alloc, &["c", "a"], text.as_bytes(), b"")
}

// A text has at most 1,000,000 tokens: two for each value, and six others.
#[test]
fn lengths(rt: HostRuntime) -> Result<(), AllocError> {
    let most = answer_to_list(rt.alloc(), "};")?;
    assert!(rt; is_answer(&most, 1, b"", b"elvm: a: Mismatch at 4\n"));
    let more = answer_to_list(rt.alloc(), "1};")?;
    assert!(rt; is_answer(&more, 8, b"", b"elvm: a: too large\n"));
    Ok(())
}
