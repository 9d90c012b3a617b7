// Jumps that are told at places that the code has. What code was emitted meanwhile may be known only of a tree that is fit,
// so that the place is looked at first.

ghost use Rattle.std.specs.Prelude.{◌≡◌, ◌<◌, ◌+◌, length, suc, ℕ, IfOk, OnOk};
ghost use Rattle.c_plain.specs.declared.instruction.Instruction.TheVariants as plain;
ghost use Rattle.c_emitted.specs.Emits.{Fills};
ghost use Rattle.c_jumps.specs.Jumps.{Turns, EndsDo, EndsLoop};

use c_emitted::Emitter;
use c_plain::Instruction;
use std::alloc::AllocError;

// Whether the code has a place.
fn is_emitted(out: &Emitter<'_>, at: u32) -> Result<(), AllocError>
    ensures { OnOk result (at < length out.now.code) }
{
    if at < out.code.count() {
        Ok(())
    } else {
        Err(AllocError)
    }
}

/// An instruction at a place that was kept.
pub fn fill(out: &mut Emitter<'_>, at: u32, instruction: Instruction) -> Result<(), AllocError>
    ensures { OnOk result (Fills out.old out.new at instruction) }
{
    is_emitted(out, at)?;
    out.fill(at, instruction);
    Ok(())
}

/// The code that a test chooses ends here, and there is no other.
pub fn one_side(out: &mut Emitter<'_>, test: u32) -> Result<(), AllocError>
    ensures { (n : ℕ) → n + suc test ≡ length out.old.code → OnOk result (Fills out.old out.new test (plain.JumpUnless n)) }
{
    is_emitted(out, test)?;
    c_jumps::one_side(out, test);
    Ok(())
}

/// The code that a test chooses ends here, and that of its other side begins. The answer is the place of the jump over
/// the other side.
pub fn other_side(out: &mut Emitter<'_>, test: u32) -> Result<u32, AllocError>
    ensures { IfOk result (λ jump. Turns out.old out.new test jump) }
{
    is_emitted(out, test)?;
    c_jumps::other_side(out, test)
}

/// The other side ends here.
pub fn both_sides(out: &mut Emitter<'_>, jump: u32) -> Result<(), AllocError>
    ensures { (n : ℕ) → n + suc jump ≡ length out.old.code → OnOk result (Fills out.old out.new jump (plain.Jump n)) }
{
    is_emitted(out, jump)?;
    c_jumps::both_sides(out, jump);
    Ok(())
}

/// A loop ends that began at a place, with the jump behind its test at another one; a `continue` goes on at the third.
pub fn end_loop(out: &mut Emitter<'_>, start: u32, test: u32, step: u32) -> Result<(), AllocError>
    ensures { OnOk result (EndsLoop out.old out.new start test step) }
{
    is_emitted(out, start)?;
    is_emitted(out, test)?;
    if start < step && step <= out.code.count() {
        return c_jumps::end_loop(out, start, test, step);
    }
    Err(AllocError)
}

/// A loop that began at a place ends with its test; that began at another one, to which a `continue` goes.
pub fn end_do(out: &mut Emitter<'_>, start: u32, test: u32) -> Result<(), AllocError>
    ensures { OnOk result (EndsDo out.old out.new start test) }
{
    if start < test && test <= out.code.count() {
        return c_jumps::end_do(out, start, test);
    }
    Err(AllocError)
}
