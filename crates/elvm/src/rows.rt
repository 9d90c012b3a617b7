// Calls as rows of one text.

use crate::calls::{Answer, call, is_answer};
use std::alloc::{AllocError, Global};

// A call by its words, between which stands one space.
fn call_by(alloc: Global, words: &str, file: &[u8], input: &[u8]) -> Result<Answer, AllocError> {
    let words: Vec<&str> = words.split(' ').collect(alloc)?;
    call(alloc, words.as_slice(), file, input)
}

// What calls make of a file, each of what the one before wrote; nothing where one isn't done.
fn made_by(alloc: Global, calls: &str, file: &[u8]) -> Result<Option<Vec<u8>>, AllocError> {
    let mut text = file.to_vec(alloc)?;
    for words in calls.split(" | ") {
        let answer = call_by(alloc, words, text.as_slice(), b"")?;
        if !is_answer(&answer, 0, answer.out.got(), b"") {
            return Ok(None);
        }
        text = answer.out.got().to_vec(alloc)?;
    }
    Ok(Some(text))
}

// The answer of the last of the calls, to what those before it make of a file.
fn answer_of(
    alloc: Global,
    calls: &str,
    file: &[u8],
    input: &[u8],
) -> Result<Option<Answer>, AllocError> {
    let Some((before, last)) = calls.rsplit_once(" | ") else {
        return Ok(Some(call_by(alloc, calls, file, input)?));
    };
    let Some(text) = made_by(alloc, before, file)? else {
        return Ok(None);
    };
    Ok(Some(call_by(alloc, last, text.as_slice(), input)?))
}

// The line on standard error that tells this.
fn line_of(alloc: Global, told: &str) -> Result<String, AllocError> {
    if told.is_empty() {
        return Ok(String::new(alloc));
    }
    format!(in alloc; "elvm: {told}\n")
}

// A row is a file, the output, what is told, and the status. Where what is told and the status aren't said, it is done.
fn holds(alloc: Global, calls: &str, row: &str, input: &[u8]) -> Result<bool, AllocError> {
    let (file, rest) = row.split_once(" => ").unwrap_or((row, ""));
    let (out, rest) = rest.split_once(" => ").unwrap_or((rest, " => 0"));
    let Some((told, status)) = rest.split_once(" => ") else {
        return Ok(false);
    };
    let Ok(status) = status.parse::<u8>() else {
        return Ok(false);
    };
    let Some(answer) = answer_of(alloc, calls, file.as_bytes(), input)? else {
        return Ok(false);
    };
    let line = line_of(alloc, told)?;
    Ok(is_answer(&answer, status, out.as_bytes(), line.as_bytes()))
}

// The first row of a text that isn't so, where these calls are made on its file with this input. Between two rows stands a line
// end, a bar and a space.
fn first_failing_of<'a>(
    alloc: Global,
    calls: &str,
    rows: &'a str,
    input: &[u8],
) -> Result<Option<&'a str>, AllocError> {
    for row in rows.split("\n| ") {
        if !holds(alloc, calls, row, input)? {
            return Ok(Some(row));
        }
    }
    Ok(None)
}

/// The first row of a text that isn't so, where the calls of a heading are made on its file one after another, with a bar between two,
/// and each on what the one before wrote. Behind a semicolon stand further calls for the same rows, behind a less sign what the last
/// of each has as its input, and behind a number sign a remark.
pub(crate) fn first_failing_under<'a>(
    alloc: Global,
    heading: &str,
    rows: &'a str,
) -> Result<Option<&'a str>, AllocError> {
    let (heading, _remark) = heading.split_once(" # ").unwrap_or((heading, ""));
    let (all, input) = heading.split_once(" < ").unwrap_or((heading, ""));
    for calls in all.split(" ; ") {
        if let Some(row) = first_failing_of(alloc, calls, rows, input.as_bytes())? {
            return Ok(Some(row));
        }
    }
    Ok(None)
}

/// The first row of several texts that isn't so: before each two equals signs and a space, but for the first, and on its first line
/// its heading.
pub(crate) fn first_failing<'a>(
    alloc: Global,
    texts: &'a str,
) -> Result<Option<&'a str>, AllocError> {
    for text in texts.split("\n== ") {
        let Some((heading, rows)) = text.split_once("\n| ") else {
            return Ok(Some(text));
        };
        if let Some(row) = first_failing_under(alloc, heading, rows)? {
            return Ok(Some(row));
        }
    }
    Ok(None)
}
