// Choices.

ghost use Rattle.std.specs.Prelude.{◌≡◌, ◌<◌, ◌+◌, length, suc, ℕ, IfOk};
ghost use Rattle.c_plain.specs.declared.instruction.Instruction.TheVariants as plain;
ghost use Rattle.c_emitted.specs.Emits.{Fills};
ghost use Rattle.c_jumps.specs.Jumps.{Turns};

use c_emitted::Emitter;
use c_plain::Instruction;
use std::alloc::AllocError;

/// The code that a test chooses ends here, and there is no other.
pub fn one_side(out: &mut Emitter<'_>, test: u32)
    requires { test < length out.old.code }
    ensures { (n : ℕ) → n + suc test ≡ length out.old.code → Fills out.old out.new test (plain.JumpUnless n) }
{
    let distance = out.behind(test);
    out.fill(test, Instruction::JumpUnless(distance));
}

/// The code that a test chooses ends here, and that of its other side begins. The answer is the place of the jump over
/// the other side.
pub fn other_side(out: &mut Emitter<'_>, test: u32) -> Result<u32, AllocError>
    requires { test < length out.old.code }
    ensures { IfOk result (λ jump. Turns out.old out.new test jump) }
{
    let distance = out.behind(test);
    if distance >= 4294967294 {
        return Err(AllocError);
    }
    out.fill(test, Instruction::JumpUnless(distance + 1));
    out.reserve()
}

/// The other side ends here.
pub fn both_sides(out: &mut Emitter<'_>, jump: u32)
    requires { jump < length out.old.code }
    ensures { (n : ℕ) → n + suc jump ≡ length out.old.code → Fills out.old out.new jump (plain.Jump n) }
{
    let distance = out.behind(jump);
    out.fill(jump, Instruction::Jump(distance));
}
