// Code that is set aside.

ghost use Rattle.std.specs.Prelude.{◌≡◌, [], OnOk};
ghost use Rattle.c_aside.specs.Aside.{HasCode, Appends};

use c_emitted::{Code, Emitter};
use std::alloc::AllocError;
use std::mem;

/// The code so far is set aside: it is the answer, and code is emitted from nothing.
pub fn set_aside(out: &mut Emitter<'_>) -> Code
    ensures aside { result ≡ out.old.code }
    ensures code { HasCode out.old out.new [] }
{
    let nothing = Code::new(out.alloc);
    mem::replace(&mut out.code, nothing)
}

/// The code that was set aside stands again. What was emitted meanwhile is the answer.
pub fn put_back(out: &mut Emitter<'_>, front: Code) -> Code
    ensures emitted { result ≡ out.old.code }
    ensures code { HasCode out.old out.new front }
{
    mem::replace(&mut out.code, front)
}

/// Code that was emitted apart stands behind the code so far.
pub fn append(out: &mut Emitter<'_>, code: Code) -> Result<(), AllocError>
    ensures { OnOk result (Appends out.old out.new code) }
{
    let instructions = code.instructions();
    for instruction in &instructions {
        out.code.push(*instruction)?;
    }
    Ok(())
}
