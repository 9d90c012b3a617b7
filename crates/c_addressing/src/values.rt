// Pieces of code with places and values, added where code stands.

ghost use Rattle.std.specs.Prelude.{◌≡◌, ℕ, ◌++◌, OnOk};
ghost use Rattle.c_types.specs.Seen.{Counts};
ghost use Rattle.c_lowered.specs.Locations as plain;
ghost use Rattle.c_lowered.specs.Operations;
ghost use Rattle.c_lowered.specs.Statements.{jump_to};
ghost use Rattle.c_counted.specs.Numbers.{IsNumber};
ghost use Rattle.c_addressing.specs.Here.{Emits};
ghost use Rattle.c_addressing.specs.Places.{IsLocation, IsDirect};

use crate::here::Output;
use c_emission::{
    Direct, Location, put, put_jump, put_load, put_point, put_ready, put_restore, put_save,
    put_store,
};
use c_types::Words;
use eir_core::{Op, Operand, Reg};
use std::alloc::AllocError;

/// The operand that a value is once it is ready.
pub fn operand_of(v: Direct) -> Operand
    ensures { (x : plain.Direct) → IsDirect v x → result ≡ Operations.operand_of x }
{
    c_emission::operand_of(v)
}

// The address in A goes on by so many words; where there are 2^24 of them or a multiple, it is still an operation.
fn put_words(ops: &mut Vec<Op>, words: Words) -> Result<(), AllocError>
    ensures { (n : ℕ) → Counts words n → OnOk result (ops.new.items ≡ ops.old.items ++ Operations.moved_on n) }
{
    if words.at_most(0) {
        return Ok(());
    }
    put(ops, Op::Add(Reg::A, Operand::Imm(words.low())))
}

/// A value that needs no evaluation comes into a register.
pub fn load(out: &mut Output<'_>, r: Reg, v: Direct) -> Result<(), AllocError>
    ensures { (x : plain.Direct) → IsDirect v x → OnOk result (Emits out.old out.new (Operations.load_to r x) 0) }
{
    put_load(&mut out.ops, r, v)?;
    Ok(())
}

/// The value in A goes to a place.
pub fn store(out: &mut Output<'_>, to: Location) -> Result<(), AllocError>
    ensures { (l : plain.Location) → IsLocation to l → OnOk result (Emits out.old out.new (Operations.store_to l) 0) }
{
    put_store(&mut out.ops, to)?;
    Ok(())
}

/// The address of a place comes into C.
pub fn point(out: &mut Output<'_>, to: Location) -> Result<(), AllocError>
    ensures { (l : plain.Location) → IsLocation to l → OnOk result (Emits out.old out.new (Operations.point_to l) 0) }
{
    put_point(&mut out.ops, to)?;
    Ok(())
}

/// The value in A waits in the frame's word `d`.
pub fn save(out: &mut Output<'_>, d: u32) -> Result<(), AllocError>
    ensures { (n : ℕ) → IsNumber d n → OnOk result (Emits out.old out.new (Operations.save n) 0) }
{
    put_save(&mut out.ops, d)?;
    Ok(())
}

/// What waits in the frame's word `d` comes into a register.
pub fn restore(out: &mut Output<'_>, r: Reg, d: u32) -> Result<(), AllocError>
    ensures { (n : ℕ) → IsNumber d n → OnOk result (Emits out.old out.new (Operations.restore r n) 0) }
{
    put_restore(&mut out.ops, r, d)?;
    Ok(())
}

/// A value that needs no evaluation becomes ready to be an operand.
pub fn ready(out: &mut Output<'_>, v: Direct) -> Result<(), AllocError>
    ensures { (x : plain.Direct) → IsDirect v x → OnOk result (Emits out.old out.new (Operations.ready x) 0) }
{
    put_ready(&mut out.ops, v)?;
    Ok(())
}

/// The address in A goes on by some words.
pub fn moved_on(out: &mut Output<'_>, words: Words) -> Result<(), AllocError>
    ensures { (n : ℕ) → Counts words n → OnOk result (Emits out.old out.new (Operations.moved_on n) 0) }
{
    put_words(&mut out.ops, words)?;
    Ok(())
}

/// A jump to a block.
pub fn jump(out: &mut Output<'_>, block: u32) -> Result<(), AllocError>
    ensures { (n : ℕ) → IsNumber block n → OnOk result (Emits out.old out.new (jump_to n) 0) }
{
    put_jump(&mut out.ops, block)?;
    Ok(())
}
