// Loops.

ghost use Rattle.std.specs.Prelude.{◌≡◌, ◌<◌, ◌≤◌, length, suc, IfOk, OnOk};
ghost use Rattle.c_jumps.specs.Jumps.{BeginsTurn, EndsDo, EndsLoop};

use c_emitted::Emitter;
use c_plain::Instruction;
use std::alloc::AllocError;

/// Behind a loop's test a turn begins, which costs a unit. The answer is the place of the jump out of the loop.
pub fn begin_turn(out: &mut Emitter<'_>) -> Result<u32, AllocError>
    ensures { IfOk result (λ test. BeginsTurn out.old out.new test) }
{
    let test = out.reserve()?;
    out.add(Instruction::Pay)?;
    Ok(test)
}

/// A loop ends that began at a place, with the jump behind its test at another one; a `continue` goes on at the third.
pub fn end_loop(out: &mut Emitter<'_>, start: u32, test: u32, step: u32) -> Result<(), AllocError>
    requires start { start < length out.old.code }
    requires test { test < length out.old.code }
    requires step { step ≤ length out.old.code }
    requires order { start < step }
    ensures { OnOk result (EndsLoop out.old out.new start test step) }
{
    let all = out.behind(start);
    let turn = out.behind(test);
    let again = out.code.count() - step;
    if all >= 4294967294 || turn >= 4294967294 {
        return Err(AllocError);
    }
    out.add(Instruction::Back(all + 1))?;
    out.add(Instruction::Done)?;
    out.fill(test, Instruction::JumpUnless(turn + 1));
    out.fill(start, Instruction::Loop(all - again, all + 2));
    Ok(())
}

/// A loop that began at a place, with a unit to pay behind it, ends with its test; that began at another one, to which a
/// `continue` goes.
pub fn end_do(out: &mut Emitter<'_>, start: u32, test: u32) -> Result<(), AllocError>
    requires test { test ≤ length out.old.code }
    requires order { start < test }
    ensures { OnOk result (EndsDo out.old out.new start test) }
{
    let all = out.behind(start);
    let again = out.code.count() - test;
    if all >= 4294967292 {
        return Err(AllocError);
    }
    out.add(Instruction::JumpUnless(1))?;
    out.add(Instruction::Back(all + 2))?;
    out.add(Instruction::Done)?;
    out.fill(start, Instruction::Loop(all - again, all + 3));
    Ok(())
}
