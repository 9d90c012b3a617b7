// The top call.
ghost use Rattle.std.specs.Prelude.{◌≡◌, false, map, string_bytes};
ghost use Rattle.elvm_words.specs.Invocation.{invocation_in};
ghost use Rattle.elvm_cli.specs.Seen.{on_shelf, on_sink, on_source, seen};
ghost use Rattle.elvm_cli.specs.Answer.{Answers, IsEarlyStatus, reads_file, takes_input};
ghost use Rattle.elvm_cli.specs.Exact.{IsComplete, IsExact};

use crate::answer::answer_words;
use crate::line::tell;
use mach_core::{Shelf, Sink, Source};
use std::alloc::Global;

/// Does what the words ask for, and gives the exit status.
///
/// The words are those after the program's name. A file is looked up on the shelf. A run takes its input from `input`,
/// and what is written goes to `out`. All but `eir`, `run` and `c` leave the input as it was, and `sample` the shelf too; so does
/// each call that ends before a program is run. The input has not told its end before. Where the status isn't 0, one line
/// that says why goes to `errs`; a fault of `errs` changes no status.
pub fn elvm<F: Shelf, I: Source, O: Sink, E: Sink>(
    alloc: Global,
    words: &[String],
    shelf: &mut F,
    input: &mut I,
    out: &mut O,
    errs: &mut E,
) -> u8
    requires { I.over input.old ≡ false }
    ensures answers { Answers (invocation_in (map string_bytes words.now)) (seen
        (on_shelf (F.faults shelf.old) (F.faults shelf.new) (F.texts shelf.old) (F.texts shelf.new)
        (F.lookups shelf.old) (F.lookups shelf.new) (F.chosen shelf.new) (F.left shelf.new))
        (on_source (I.faults input.old) (I.faults input.new) (I.left input.old) (I.left input.new))
        (on_sink (O.faults out.old) (O.faults out.new) (O.got out.old) (O.got out.new))
        (on_sink (E.faults errs.old) (E.faults errs.new) (E.got errs.old) (E.got errs.new))) result }
    ensures exact { IsExact (invocation_in (map string_bytes words.now)) (seen
        (on_shelf (F.faults shelf.old) (F.faults shelf.new) (F.texts shelf.old) (F.texts shelf.new)
        (F.lookups shelf.old) (F.lookups shelf.new) (F.chosen shelf.new) (F.left shelf.new))
        (on_source (I.faults input.old) (I.faults input.new) (I.left input.old) (I.left input.new))
        (on_sink (O.faults out.old) (O.faults out.new) (O.got out.old) (O.got out.new))
        (on_sink (E.faults errs.old) (E.faults errs.new) (E.got errs.old) (E.got errs.new))) result }
    ensures complete { IsComplete (invocation_in (map string_bytes words.now)) (seen
        (on_shelf (F.faults shelf.old) (F.faults shelf.new) (F.texts shelf.old) (F.texts shelf.new)
        (F.lookups shelf.old) (F.lookups shelf.new) (F.chosen shelf.new) (F.left shelf.new))
        (on_source (I.faults input.old) (I.faults input.new) (I.left input.old) (I.left input.new))
        (on_sink (O.faults out.old) (O.faults out.new) (O.got out.old) (O.got out.new))
        (on_sink (E.faults errs.old) (E.faults errs.new) (E.got errs.old) (E.got errs.new))) result }
    ensures unfed { takes_input (invocation_in (map string_bytes words.now)) ≡ false → input.new ≡ input.old }
    ensures early { IsEarlyStatus result → input.new ≡ input.old }
    ensures unshelved { reads_file (invocation_in (map string_bytes words.now)) ≡ false → shelf.new ≡ shelf.old }
    ensures usage { result ≡ 2 → (shelf.new ≡ shelf.old) × (out.new ≡ out.old) }
{
    let answer = answer_words(alloc, words, shelf, input, out);
    tell(answer.file, answer.outcome, errs);
    answer.outcome.status()
}
