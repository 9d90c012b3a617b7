// Lines and words on their way to a sink.
ghost use Rattle.std.specs.Prelude.{◌≡◌};
ghost use Rattle.std.specs.List.{flat_map};
ghost use Rattle.std.specs.Fmt.{signed_decimal};
ghost use Rattle.sq_back.specs.Putting.{PutsBytes, PutsLines};
ghost use Rattle.sq_back.specs.Text.{line_text, word_text, words_text};

use crate::line::Line;
use itoa::Buffer;
use mach_core::{Failed, Put, Sink};
use word24::Word;

// The text of a number, which stands in the buffer.
fn signed(n: i64, buffer: &mut Buffer) -> &[u8]
    ensures { result.now ≡ signed_decimal n }
{
    buffer.format(n).as_bytes()
}

/// Puts a line: its three numbers, parted by spaces, and a line feed.
pub(crate) fn put_line<O: Sink>(line: Line, put: &mut Put, out: &mut O) -> Result<(), Failed>
    ensures { PutsBytes O.got O.faults out.old out.new put.old put.new (line_text line) result }
{
    let mut first = Buffer::new();
    let mut second = Buffer::new();
    let mut third = Buffer::new();
    let from = signed(line.from, &mut first);
    let to = signed(line.to, &mut second);
    let next = signed(line.next, &mut third);
    put.pieces(&[from, b" ", to, b" ", next, b"\n"], out)
}

/// Puts lines.
pub(crate) fn put_lines<O: Sink>(lines: &[Line], put: &mut Put, out: &mut O) -> Result<(), Failed>
    ensures { PutsLines O.got O.faults out.old out.new put.old put.new lines.now result }
{
    for line in lines {
        put_line(*line, put, out)?;
    }
    Ok(())
}

/// Puts groups of lines, one after the other.
pub(crate) fn put_groups<O: Sink>(
    groups: &[&[Line]],
    put: &mut Put,
    out: &mut O,
) -> Result<(), Failed>
    ensures { PutsLines O.got O.faults out.old out.new put.old put.new (flat_map (λ group. group.now) groups.now) result }
{
    for group in groups {
        put_lines(group, put, out)?;
    }
    Ok(())
}

// Puts a word and a line feed.
fn put_word<O: Sink>(word: Word, put: &mut Put, out: &mut O) -> Result<(), Failed>
    ensures { PutsBytes O.got O.faults out.old out.new put.old put.new (word_text word) result }
{
    let mut buffer = Buffer::new();
    let number = buffer.format(word.get()).as_bytes();
    put.pieces(&[number, b"\n"], out)
}

/// Puts words, each with a line feed.
pub(crate) fn put_words<O: Sink>(words: &[Word], put: &mut Put, out: &mut O) -> Result<(), Failed>
    ensures { PutsBytes O.got O.faults out.old out.new put.old put.new (words_text words.now) result }
{
    for word in words {
        put_word(*word, put, out)?;
    }
    Ok(())
}
