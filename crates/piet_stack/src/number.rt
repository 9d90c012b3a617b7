// Numbers, and values that are turned.
#![tactic(auto, using(crate::proofs::Codes::codes))]

ghost use Rattle.std.specs.Prelude.{◌≡◌, ◌+◌, ◌%◌, ◌<◌, ◌^◌, ◌++◌, ◌∷◌, [], cond, nat_eq, OnOk};
ghost use Rattle.piet_lane.specs.declared.command.Command.TheVariants.{Push, Add, Duplicate};
ghost use Rattle.piet_stack.specs.Code.{digits_code, number_code, roll_code, swap_code, pick_code, put_code};

use piet_lane::Command;
use std::alloc::AllocError;

/// One more command.
pub fn put(code: &mut Vec<Command>, command: Command) -> Result<(), AllocError>
    ensures { OnOk result (code.new.items ≡ code.old.items ++ command ∷ []) }
{
    code.push(command)?;
    Ok(())
}

// The last binary digit of a number on the stack, which is doubled.
fn put_digit(code: &mut Vec<Command>, n: u32) -> Result<(), AllocError>
    ensures { OnOk result (code.new.items ≡ code.old.items ++ Duplicate ∷ Add ∷ cond (nat_eq (n % 2) 1) (Push ∷ Add ∷ []) []) }
{
    put(code, Command::Duplicate)?;
    put(code, Command::Add)?;
    if n % 2 == 1 {
        put(code, Command::Push)?;
        put(code, Command::Add)?;
    }
    Ok(())
}

// Pushes a number of at most so many binary digits.
fn put_digits(code: &mut Vec<Command>, width: u32, n: u32) -> Result<(), AllocError>
    requires { n < 2 ^ width }
    ensures { OnOk result (code.new.items ≡ code.old.items ++ digits_code width n) }
{
    if n < 2 {
        put(code, Command::Push)?;
        if n == 0 {
            put(code, Command::Not)?;
        }
        return Ok(());
    }
    put_digits(code, width - 1, n / 2)?;
    put_digit(code, n)?;
    Ok(())
}

/// Appends the commands that push a number below 2^25.
pub fn put_number(code: &mut Vec<Command>, n: u32) -> Result<(), AllocError>
    requires { n < 2 ^ 25 }
    ensures { OnOk result (code.new.items ≡ code.old.items ++ number_code n) }
{
    put_digits(code, 25, n)
}

/// Turns so many values at the top, so many times.
pub fn put_roll(code: &mut Vec<Command>, depth: u32, times: u32) -> Result<(), AllocError>
    requires depth { depth < 2 ^ 25 }
    requires times { times < 2 ^ 25 }
    ensures { OnOk result (code.new.items ≡ code.old.items ++ roll_code depth times) }
{
    put_number(code, depth)?;
    put_number(code, times)?;
    put(code, Command::Roll)
}

/// Swaps the two values at the top.
pub fn put_swap(code: &mut Vec<Command>) -> Result<(), AllocError>
    ensures { OnOk result (code.new.items ≡ code.old.items ++ swap_code) }
{
    put_roll(code, 2, 1)
}

/// Pushes the value that lies so deep.
pub fn put_pick(code: &mut Vec<Command>, depth: u32) -> Result<(), AllocError>
    requires { depth < 2 ^ 24 }
    ensures { OnOk result (code.new.items ≡ code.old.items ++ pick_code depth) }
{
    put_roll(code, depth + 1, depth)?;
    put(code, Command::Duplicate)?;
    put_roll(code, depth + 2, 1)
}

/// Takes the top value, and puts it in the place of the one that lay so deep under it.
pub fn put_put(code: &mut Vec<Command>, depth: u32) -> Result<(), AllocError>
    requires { depth < 2 ^ 24 }
    ensures { OnOk result (code.new.items ≡ code.old.items ++ put_code depth) }
{
    put_roll(code, depth + 2, depth + 1)?;
    put(code, Command::Pop)?;
    put_roll(code, depth + 1, 1)
}
