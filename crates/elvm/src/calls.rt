// Calls of `elvm` over a file, an input and sinks in memory.

ghost use Rattle.std.specs.Prelude.{◌≡◌, false};

use elvm_cli::elvm;
use mach_core::{MemShelf, MemSink, MemSource, Source};
use std::alloc::{AllocError, Global};

/// What a call answered, and what its sinks got.
pub(crate) struct Answer {
    pub status: u8,
    pub out: MemSink,
    pub errs: MemSink,
}

impl Drop for Answer {
    fn drop(self) {
        let Answer {
            status: _,
            out,
            errs,
        } = self;
        drop(out);
        drop(errs);
    }
}

/// Calls `elvm` over a shelf and an input, with so much room for the output.
pub(crate) fn call_over(
    alloc: Global,
    words: &[&str],
    mut shelf: MemShelf,
    mut input: MemSource,
    room: usize,
) -> Result<Answer, AllocError>
    requires { ⟦<MemSource as Source>⟧.over input ≡ false }
{
    let mut list: Vec<String> = Vec::new(alloc);
    for word in words {
        list.push(String::from_str(alloc, word)?)?;
    }
    let mut out = MemSink::new(alloc, room, 1000, Vec::new(alloc))?;
    let mut errs = MemSink::new(alloc, 100, 7, Vec::new(alloc))?;
    let words = list.as_slice();
    let status = elvm(alloc, words, &mut shelf, &mut input, &mut out, &mut errs);
    Ok(Answer { status, out, errs })
}

/// A shelf that has the file `a` alone, whose calls of these numbers fail.
pub(crate) fn shelf_of(
    alloc: Global,
    file: &[u8],
    fails: Vec<u64>,
) -> Result<MemShelf, AllocError> {
    let mut files = Vec::new(alloc);
    files.push((String::from_str(alloc, "a")?, file.to_vec(alloc)?))?;
    Ok(MemShelf::new(files, 1000, fails))
}

/// Calls `elvm` with a shelf that has the file `a` alone, and with so much room for the output.
pub(crate) fn call_with(
    alloc: Global,
    words: &[&str],
    file: &[u8],
    input: MemSource,
    room: usize,
) -> Result<Answer, AllocError>
    requires { ⟦<MemSource as Source>⟧.over input ≡ false }
{
    let shelf = shelf_of(alloc, file, Vec::new(alloc))?;
    call_over(alloc, words, shelf, input, room)
}

/// Calls `elvm` with an input that gives two bytes a call, and with room for all that is written here.
pub(crate) fn call(
    alloc: Global,
    words: &[&str],
    file: &[u8],
    input: &[u8],
) -> Result<Answer, AllocError> {
    let input = MemSource::new(input.to_vec(alloc)?, 2, Vec::new(alloc));
    call_with(alloc, words, file, input, 50_000_000)
}

/// Calls `elvm` with no input, and with so much room for the output.
pub(crate) fn call_quietly(
    alloc: Global,
    words: &[&str],
    file: &[u8],
    room: usize,
) -> Result<Answer, AllocError> {
    let input = MemSource::new(Vec::new(alloc), 1, Vec::new(alloc));
    call_with(alloc, words, file, input, room)
}

/// The answer has this status, the sink got these bytes, and this line was told.
pub(crate) fn is_answer(answer: &Answer, status: u8, out: &[u8], line: &[u8]) -> bool {
    answer.status == status && answer.out.got() == out && answer.errs.got() == line
}
