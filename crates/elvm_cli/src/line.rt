//! The line that a call says.
ghost use Rattle.std.specs.Prelude.{◌≡◌, [], ◌∷◌, map, OnOk, OnErr};
ghost use Rattle.std.specs.Io.KnownBytes.{Appends};
ghost use Rattle.mach_core.specs.Outside.{HasCause};
ghost use Rattle.mach_core.specs.Put.{GotPrefix};
ghost use Rattle.elvm_cli.specs.Seen.{GotLine, on_sink};
ghost use Rattle.elvm_cli.specs.Line.{fault_line, joined, line_of, placed_line, refused_line, status_of};
ghost use Rattle.elvm_cli.specs.declared.outcome.Outcome.TheVariants.{NoMemory};

use crate::outcome::Outcome;
use itoa::Buffer;
use mach_core::{Failed, Put, Sink};

/// How the words go.
const USAGE: &str = "elvm: usage: elvm VERB [--target T] [--steps N] [--codel S] FILE\n";

// Puts pieces out, one behind the other.
fn put_pieces<E: Sink>(pieces: &[&str], errs: &mut E) -> Result<(), Failed>
    ensures ok { OnOk result (Appends (E.got errs.old) (E.got errs.new) (joined (map (λ s. s.now) pieces.now))) }
    ensures err { OnErr result (GotPrefix (E.got errs.old) (E.got errs.new) (joined (map (λ s. s.now) pieces.now))) }
    ensures cause { HasCause (E.faults errs.old) (E.faults errs.new) result }
{
    let mut put = Put::new();
    for piece in pieces {
        put.bytes(piece.as_bytes(), errs)?;
    }
    put.flush(errs)
}

// Says a line in pieces. Where that fails, it is left.
fn say<E: Sink>(pieces: &[&str], errs: &mut E)
    ensures { GotLine (on_sink (E.faults errs.old) (E.faults errs.new) (E.got errs.old) (E.got errs.new)) (joined (map (λ s. s.now) pieces.now)) }
{
    let _said = put_pieces(pieces, errs);
}

// Says a line that names a file.
fn say_file<'a, E: Sink>(before: &'a str, name: &'a str, after: &'a str, errs: &mut E)
    ensures { GotLine (on_sink (E.faults errs.old) (E.faults errs.new) (E.got errs.old) (E.got errs.new)) (joined (before.entry.now ∷ name.entry.now ∷ after.entry.now ∷ [])) }
{
    say(&[before, name, after], errs)
}

// Says that a file is refused.
fn say_refused<'a, E: Sink>(name: &'a str, kind: &'a str, errs: &mut E)
    ensures { GotLine (on_sink (E.faults errs.old) (E.faults errs.new) (E.got errs.old) (E.got errs.new)) (refused_line name.entry.now kind.entry.now) }
{
    let pieces: [&'a str; 5] = ["elvm: ", name, ": ", kind, "\n"];
    say(&pieces, errs)
}

// Says that a file is refused at a place.
fn say_refused_at<'a, E: Sink>(name: &'a str, kind: &'a str, place: &'a str, errs: &mut E)
    ensures { GotLine (on_sink (E.faults errs.old) (E.faults errs.new) (E.got errs.old) (E.got errs.new)) (placed_line name.entry.now kind.entry.now place.entry.now) }
{
    let pieces: [&'a str; 7] = ["elvm: ", name, ": ", kind, " at ", place, "\n"];
    say(&pieces, errs)
}

// Says that a run met a fault.
fn say_fault<'a, E: Sink>(name: &'a str, code: &'a str, errs: &mut E)
    ensures { GotLine (on_sink (E.faults errs.old) (E.faults errs.new) (E.got errs.old) (E.got errs.new)) (fault_line name.entry.now code.entry.now) }
{
    let pieces: [&'a str; 5] = ["elvm: ", name, ": run fault ", code, "\n"];
    say(&pieces, errs)
}

/// Says how a call came out.
pub fn tell<E: Sink>(name: &str, outcome: Outcome, errs: &mut E)
    ensures { GotLine (on_sink (E.faults errs.old) (E.faults errs.new) (E.got errs.old) (E.got errs.new)) (line_of name.now outcome) }
{
    match outcome {
        Outcome::Done => {}
        Outcome::Usage => say(&[USAGE], errs),
        Outcome::NoFile => say_file("elvm: cannot read ", name, "\n", errs),
        Outcome::TooLarge => say_file("elvm: ", name, ": too large\n", errs),
        Outcome::Refused { kind, place: None } => say_refused(name, kind.name(), errs),
        Outcome::Refused {
            kind,
            place: Some(place),
        } => {
            let mut buffer = Buffer::new();
            say_refused_at(name, kind.name(), buffer.format(place), errs)
        }
        Outcome::NoInput => say(&["elvm: cannot read the input\n"], errs),
        Outcome::Fault { code } => {
            let mut buffer = Buffer::new();
            say_fault(name, buffer.format(code), errs)
        }
        Outcome::Limit => say(&["elvm: step limit reached\n"], errs),
        Outcome::NoOutput => say(&["elvm: cannot write\n"], errs),
        Outcome::NoMemory => say(&["elvm: out of memory\n"], errs),
    }
}

/// Says that there was no memory, before any words were read, and gives the exit status.
pub fn out_of_memory<E: Sink>(errs: &mut E) -> u8
    ensures line { GotLine (on_sink (E.faults errs.old) (E.faults errs.new) (E.got errs.old) (E.got errs.new)) (line_of [] NoMemory) }
    ensures status { result ≡ status_of NoMemory }
{
    tell("", Outcome::NoMemory, errs);
    Outcome::NoMemory.status()
}
