// The call that makes a sample and tells of it.
ghost use Rattle.std.specs.Prelude.{◌≡◌, ◌≤◌, [], IfOk, OnOk, OnErr, IsErrOf};
ghost use Rattle.std.specs.Io.KnownBytes.{Appends};
ghost use Rattle.mach_core.specs.Outside.{HasCause, Rose};
ghost use Rattle.mach_core.specs.Put.{GotPrefix, PutsFront, PutsText};
ghost use Rattle.elvm_sample.specs.Sample.{IsSample};

use crate::line::sample_line;
use crate::program::sample_program;
use crate::runs::{last_byte, whitespace_steps, whitespace_text};
use mach_core::{Failed, Put, Sink};
use std::alloc::{AllocError, Global};
use thiserror::Error;

/// Why the line of a sample wasn't written.
#[derive(Clone, Copy, Debug, PartialEq, Eq, Error)]
pub enum SampleFault {
    #[error("the line can't be written")]
    Write,
    #[error("out of memory")]
    Memory,
}

// Makes the sample of `n` blocks, emits it as Whitespace, runs both, and gives the line.
//
// What both write isn't compared: a text that was emitted writes what its program does.
fn told_sample(alloc: Global, n: u32) -> Result<Vec<u8>, AllocError>
    requires { n ≤ 20000 }
    ensures { IfOk result (λ line. IsSample n line.items) }
{
    let program = sample_program(alloc, n)?;
    let last = last_byte(alloc, &program, 5 * u64::from(n))?;
    let text = whitespace_text(alloc, &program)?;
    let moves = whitespace_steps(alloc, n, text.as_slice())?;
    sample_line(alloc, n, last, text.len(), moves)
}

// Puts a line out.
fn put_line<O: Sink>(line: &[u8], out: &mut O) -> Result<(), Failed>
    ensures ok { OnOk result (Appends (O.got out.old) (O.got out.new) line.now) }
    ensures err { OnErr result (GotPrefix (O.got out.old) (O.got out.new) line.now) }
    ensures cause { HasCause (O.faults out.old) (O.faults out.new) result }
{
    let mut put = Put::new();
    put.bytes(line, out)?;
    put.flush(out)
}

/// Makes the sample of `n` blocks, emits it as Whitespace, runs both on no input, and writes one line about them to `out`.
///
/// `Write` comes only where the count of faults of `out` rose, and `out` got a front of such a line then. After `Memory`
/// it got nothing.
pub fn put_sample<O: Sink>(alloc: Global, n: u32, out: &mut O) -> Result<(), SampleFault>
    requires { n ≤ 20000 }
    ensures ok { OnOk result (PutsText (O.got out.old) (O.got out.new) (IsSample n)) }
    ensures write { IsErrOf result SampleFault.Write → Rose (O.faults out.old) (O.faults out.new) }
    ensures write_front { IsErrOf result SampleFault.Write → PutsFront (O.got out.old) (O.got out.new) (IsSample n) }
    ensures memory { IsErrOf result SampleFault.Memory → Appends (O.got out.old) (O.got out.new) [] }
    ensures later { O.faults out.old ≤ O.faults out.new }
{
    let Ok(line) = told_sample(alloc, n) else {
        return Err(SampleFault::Memory);
    };
    match put_line(line.as_slice(), out) {
        Ok(()) => Ok(()),
        Err(Failed) => Err(SampleFault::Write),
    }
}
