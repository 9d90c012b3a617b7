// The line of a sample.
ghost use Rattle.std.specs.Prelude.{◌≡◌, ◌≤◌, ◌++◌, codes, decimal, IfOk, OnOk};
ghost use Rattle.elvm_sample.specs.Line.{last_text, sample_line};

use itoa::Buffer;
use std::alloc::{AllocError, Global};

// Adds a word and a number in decimal.
fn add_number(line: &mut Vec<u8>, word: &str, number: u64) -> Result<(), AllocError>
    ensures { OnOk result (line.new.items ≡ line.old.items ++ word.now ++ decimal number) }
{
    let mut buffer = Buffer::new();
    line.extend_from_slice(word.as_bytes())?;
    line.extend_from_slice(buffer.format(number).as_bytes())
}

// Adds the last byte in decimal, or a dash for none.
fn add_last(line: &mut Vec<u8>, last: Option<u8>) -> Result<(), AllocError>
    ensures { OnOk result (line.new.items ≡ line.old.items ++ codes " last " ++ last_text last) }
{
    match last {
        None => line.extend_from_slice(b" last -"),
        Some(byte) => add_number(line, " last ", u64::from(byte)),
    }
}

/// The line of a sample of `n` blocks: with the last byte that it writes, the length of its Whitespace text, and how many
/// steps that makes.
pub fn sample_line(
    alloc: Global,
    n: u32,
    last: Option<u8>,
    text_length: usize,
    moves: u64,
) -> Result<Vec<u8>, AllocError>
    requires { n ≤ 20000 }
    ensures { IfOk result (λ line. line.items ≡ sample_line n last text_length moves) }
{
    let blocks = u64::from(n);
    let mut line = Vec::new(alloc);
    add_number(&mut line, "sample ", blocks)?;
    add_number(&mut line, " size ", 6 * blocks)?;
    add_number(&mut line, " steps ", 5 * blocks)?;
    add_number(&mut line, " bytes ", blocks)?;
    add_last(&mut line, last)?;
    add_number(&mut line, " text ", text_length as u64)?;
    add_number(&mut line, " moves ", moves)?;
    line.extend_from_slice(b" same\n")?;
    Ok(line)
}
