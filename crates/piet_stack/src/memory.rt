// Words of memory.
#![tactic(auto, using(crate::proofs::Codes::codes))]

ghost use Rattle.std.specs.Prelude.{◌≡◌, ◌-◌, ◌<◌, ◌≤◌, ◌^◌, ◌++◌, ◌∷◌, [], OnOk};
ghost use Rattle.piet_lane.specs.declared.command.Command.TheVariants.{Push, Pop, Add, Subtract, Multiply, Not, Duplicate, Roll};
ghost use Rattle.piet_stack.specs.Code.{number_code, pick_code, put_code, swap_code, high_code, low_code, near_code, place_code, depth_code, bring_code, load_code, store_code, ensure_code, grow_code, put_reg_code, reg_index as reg_index_of};

use crate::number::{put, put_number, put_pick, put_put, put_swap};
use crate::registers::{put_reg, reg_index};
use eir_core::Reg;
use piet_lane::Command;
use std::alloc::AllocError;

// With an address on top: pushes 1 where it is high, else 0.
fn put_high(code: &mut Vec<Command>) -> Result<(), AllocError>
    ensures { OnOk result (code.new.items ≡ code.old.items ++ high_code) }
{
    put(code, Command::Duplicate)?;
    put_number(code, 8388607)?;
    put(code, Command::Greater)
}

// Then pushes the address where it is not high, else 0.
fn put_low(code: &mut Vec<Command>) -> Result<(), AllocError>
    ensures { OnOk result (code.new.items ≡ code.old.items ++ low_code) }
{
    put_pick(code, 1)?;
    put_pick(code, 1)?;
    code.extend_from_slice(&[Command::Not, Command::Multiply])
}

// Then adds how far it is from the end where it is high.
fn put_near(code: &mut Vec<Command>) -> Result<(), AllocError>
    ensures { OnOk result (code.new.items ≡ code.old.items ++ near_code) }
{
    put_number(code, 16777215)?;
    put_pick(code, 3)?;
    put(code, Command::Subtract)?;
    put_pick(code, 2)?;
    code.extend_from_slice(&[Command::Multiply, Command::Add])
}

/// Puts the place of an address among the words of memory in the place of the address.
pub fn put_place(code: &mut Vec<Command>) -> Result<(), AllocError>
    ensures { OnOk result (code.new.items ≡ code.old.items ++ place_code) }
{
    put_high(code)?;
    put_low(code)?;
    put_near(code)?;
    code.extend_from_slice(&[Command::Duplicate, Command::Add, Command::Add])?;
    put_put(code, 0)
}

// With a place on top: so many values under it and the ones up to that place.
fn put_depth(code: &mut Vec<Command>, under: u32) -> Result<(), AllocError>
    requires { under < 2 ^ 24 }
    ensures { OnOk result (code.new.items ≡ code.old.items ++ depth_code under) }
{
    put_number(code, under)?;
    put(code, Command::Add)
}

// Brings the word at the place on top above that place.
fn put_bring(code: &mut Vec<Command>) -> Result<(), AllocError>
    ensures { OnOk result (code.new.items ≡ code.old.items ++ bring_code) }
{
    put(code, Command::Duplicate)?;
    put_depth(code, 9)?;
    code.extend_from_slice(&[
        Command::Duplicate,
        Command::Push,
        Command::Subtract,
        Command::Roll,
    ])
}

/// The word at the place on top goes into a register.
pub fn put_load(code: &mut Vec<Command>, r: Reg) -> Result<(), AllocError>
    ensures { OnOk result (code.new.items ≡ code.old.items ++ load_code r) }
{
    put_bring(code)?;
    put_swap(code)?;
    put_pick(code, 1)?;
    put_swap(code)?;
    put_depth(code, 9)?;
    code.extend_from_slice(&[Command::Push, Command::Roll])?;
    put_reg(code, r)
}

/// The word at the place on top becomes that of a register.
pub fn put_store(code: &mut Vec<Command>, r: Reg) -> Result<(), AllocError>
    ensures { OnOk result (code.new.items ≡ code.old.items ++ store_code r) }
{
    put_bring(code)?;
    put(code, Command::Pop)?;
    put_pick(code, 2 + reg_index(r))?;
    put_swap(code)?;
    put_depth(code, 8)?;
    code.extend_from_slice(&[Command::Push, Command::Roll])
}

/// Appends the commands that push the lane `grow` or the one behind it, with a lane and a place of memory on top: the one
/// behind it where the pairs go up to that place.
pub fn put_ensure(code: &mut Vec<Command>, grow: u32) -> Result<(), AllocError>
    requires { grow < 2 ^ 24 }
    ensures { OnOk result (code.new.items ≡ code.old.items ++ ensure_code grow) }
{
    put_pick(code, 2)?;
    put_pick(code, 2)?;
    put_number(code, 2)?;
    code.extend_from_slice(&[Command::Divide, Command::Greater])?;
    put_number(code, grow)?;
    put(code, Command::Add)
}

// Two zeros at the bottom, with a lane and a place of memory on top.
fn put_zeros(code: &mut Vec<Command>) -> Result<(), AllocError>
    ensures { OnOk result (code.new.items ≡ code.old.items ++ Push ∷ Not ∷ Push ∷ Not ∷ (pick_code 4 ++ Duplicate ∷ Add ∷ (number_code 11 ++ Add ∷ (number_code 2 ++ Roll ∷ [])))) }
{
    code.extend_from_slice(&[Command::Push, Command::Not, Command::Push, Command::Not])?;
    put_pick(code, 4)?;
    code.extend_from_slice(&[Command::Duplicate, Command::Add])?;
    put_depth(code, 11)?;
    put_number(code, 2)?;
    put(code, Command::Roll)
}

/// Appends the commands that add a pair of zeros at the bottom, with a lane and a place of memory on top.
pub fn put_grow(code: &mut Vec<Command>) -> Result<(), AllocError>
    ensures { OnOk result (code.new.items ≡ code.old.items ++ grow_code) }
{
    put_zeros(code)?;
    put_pick(code, 2)?;
    code.extend_from_slice(&[Command::Push, Command::Add])?;
    put_put(code, 2)
}
