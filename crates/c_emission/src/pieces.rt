// Code one piece after the other, each as it is defined.

ghost use Rattle.std.specs.Prelude.{◌≡◌, ◌++◌, [], ◌∷◌, OnOk};
ghost use Rattle.c_lowered.specs.Operations;
ghost use Rattle.c_lowered.specs.Locations.{Stored};
ghost use Rattle.c_lowered.specs.Statements.{jump_to};
ghost use Rattle.c_emission.specs.View.{direct_of, location_of};

use crate::location::{Direct, Location};
use eir_core::{Op, Operand, Reg};
use std::alloc::AllocError;
use word24::Word;

/// The word that a number is modulo 2^24.
fn wrapped(number: u64) -> Word
    ensures { result ≡ Operations.wrapped number }
{
    Word::wrap(number)
}

/// The operand that is this word.
pub fn constant(number: u32) -> Operand
    ensures { result ≡ Operations.constant number }
{
    Operand::Imm(wrapped(number as u64))
}

/// One more operation.
pub fn put(ops: &mut Vec<Op>, op: Op) -> Result<(), AllocError>
    ensures { OnOk result (ops.new.items ≡ ops.old.items ++ op ∷ []) }
{
    ops.push(op)?;
    Ok(())
}

/// A register becomes the word that lies somewhere.
fn put_load_from(ops: &mut Vec<Op>, r: Reg, from: Location) -> Result<(), AllocError>
    ensures { OnOk result (ops.new.items ≡ ops.old.items ++ Operations.load_to r (Stored (location_of from))) }
{
    match from {
        Location::Fixed(address) => put(ops, Op::Load(r, constant(address))),
        Location::Framed(offset) => {
            put(ops, Op::Mov(r, Operand::Reg(Reg::BP)))?;
            put(ops, Op::Add(r, constant(offset)))?;
            put(ops, Op::Load(r, Operand::Reg(r)))
        }
    }
}

/// A value that needs no evaluation comes into a register.
pub fn put_load(ops: &mut Vec<Op>, r: Reg, v: Direct) -> Result<(), AllocError>
    ensures { OnOk result (ops.new.items ≡ ops.old.items ++ Operations.load_to r (direct_of v)) }
{
    match v {
        Direct::Exactly(word) => put(ops, Op::Mov(r, constant(word))),
        Direct::Address(offset) => {
            put(ops, Op::Mov(r, Operand::Reg(Reg::BP)))?;
            put(ops, Op::Add(r, constant(offset)))
        }
        Direct::Stored(from) => put_load_from(ops, r, from),
    }
}

/// The value in A goes to a place.
pub fn put_store(ops: &mut Vec<Op>, to: Location) -> Result<(), AllocError>
    ensures { OnOk result (ops.new.items ≡ ops.old.items ++ Operations.store_to (location_of to)) }
{
    match to {
        Location::Fixed(address) => put(ops, Op::Store(Reg::A, constant(address))),
        Location::Framed(offset) => {
            put(ops, Op::Mov(Reg::C, Operand::Reg(Reg::BP)))?;
            put(ops, Op::Add(Reg::C, constant(offset)))?;
            put(ops, Op::Store(Reg::A, Operand::Reg(Reg::C)))
        }
    }
}

/// The address of a place comes into C.
pub fn put_point(ops: &mut Vec<Op>, to: Location) -> Result<(), AllocError>
    ensures { OnOk result (ops.new.items ≡ ops.old.items ++ Operations.point_to (location_of to)) }
{
    match to {
        Location::Fixed(address) => put(ops, Op::Mov(Reg::C, constant(address))),
        Location::Framed(offset) => {
            put(ops, Op::Mov(Reg::C, Operand::Reg(Reg::BP)))?;
            put(ops, Op::Add(Reg::C, constant(offset)))
        }
    }
}

/// The value in A waits in the frame's word `d`.
pub fn put_save(ops: &mut Vec<Op>, d: u32) -> Result<(), AllocError>
    ensures { OnOk result (ops.new.items ≡ ops.old.items ++ Operations.save d) }
{
    put(ops, Op::Mov(Reg::C, Operand::Reg(Reg::BP)))?;
    put(ops, Op::Add(Reg::C, constant(d)))?;
    put(ops, Op::Store(Reg::A, Operand::Reg(Reg::C)))
}

/// What waits in the frame's word `d` comes into a register.
pub fn put_restore(ops: &mut Vec<Op>, r: Reg, d: u32) -> Result<(), AllocError>
    ensures { OnOk result (ops.new.items ≡ ops.old.items ++ Operations.restore r d) }
{
    put(ops, Op::Mov(r, Operand::Reg(Reg::BP)))?;
    put(ops, Op::Add(r, constant(d)))?;
    put(ops, Op::Load(r, Operand::Reg(r)))
}

/// A value that needs no evaluation becomes ready to be an operand.
pub fn put_ready(ops: &mut Vec<Op>, v: Direct) -> Result<(), AllocError>
    ensures { OnOk result (ops.new.items ≡ ops.old.items ++ Operations.ready (direct_of v)) }
{
    match v {
        Direct::Exactly(_) => Ok(()),
        Direct::Address(offset) => put_load(ops, Reg::B, Direct::Address(offset)),
        Direct::Stored(from) => put_load_from(ops, Reg::B, from),
    }
}

/// The operand that it then is.
pub fn operand_of(v: Direct) -> Operand
    ensures { result ≡ Operations.operand_of (direct_of v) }
{
    match v {
        Direct::Exactly(word) => constant(word),
        Direct::Address(_) => Operand::Reg(Reg::B),
        Direct::Stored(_) => Operand::Reg(Reg::B),
    }
}

/// What a register has comes into A.
pub fn put_moved_from(ops: &mut Vec<Op>, r: Reg) -> Result<(), AllocError>
    ensures { OnOk result (ops.new.items ≡ ops.old.items ++ Operations.moved_from r) }
{
    match r {
        Reg::A => Ok(()),
        Reg::B => put(ops, Op::Mov(Reg::A, Operand::Reg(Reg::B))),
        Reg::C => put(ops, Op::Mov(Reg::A, Operand::Reg(Reg::C))),
        Reg::D => put(ops, Op::Mov(Reg::A, Operand::Reg(Reg::D))),
        Reg::SP => put(ops, Op::Mov(Reg::A, Operand::Reg(Reg::SP))),
        Reg::BP => put(ops, Op::Mov(Reg::A, Operand::Reg(Reg::BP))),
    }
}

/// A jump to a block.
pub fn put_jump(ops: &mut Vec<Op>, block: u32) -> Result<(), AllocError>
    ensures { OnOk result (ops.new.items ≡ ops.old.items ++ jump_to block) }
{
    put(ops, Op::Jump(constant(block)))
}

/// A call of the function whose first block is `entry`; its frame begins at the frame's word `d`, and it returns to
/// the block `back`, which begins behind the jump.
pub fn put_call(ops: &mut Vec<Op>, d: u32, back: u32, entry: u32) -> Result<(), AllocError>
    ensures { OnOk result (ops.new.items ≡ ops.old.items ++ Operations.call_at d back entry) }
{
    put(ops, Op::Add(Reg::BP, constant(d)))?;
    put(ops, Op::Mov(Reg::A, constant(back)))?;
    put(ops, Op::Store(Reg::A, Operand::Reg(Reg::BP)))?;
    put(ops, Op::Jump(constant(entry)))?;
    put(ops, Op::Sub(Reg::BP, constant(d)))
}

/// The same through the function pointer that waits in that word.
pub fn put_call_through(ops: &mut Vec<Op>, d: u32, back: u32) -> Result<(), AllocError>
    ensures { OnOk result (ops.new.items ≡ ops.old.items ++ Operations.call_through_at d back) }
{
    put(ops, Op::Add(Reg::BP, constant(d)))?;
    put(ops, Op::Load(Reg::B, Operand::Reg(Reg::BP)))?;
    put(ops, Op::Mov(Reg::A, constant(back)))?;
    put(ops, Op::Store(Reg::A, Operand::Reg(Reg::BP)))?;
    put(ops, Op::Jump(Operand::Reg(Reg::B)))?;
    put(ops, Op::Sub(Reg::BP, constant(d)))
}

/// The return to the block in the frame's first word.
pub fn put_return(ops: &mut Vec<Op>) -> Result<(), AllocError>
    ensures { OnOk result (ops.new.items ≡ ops.old.items ++ Operations.return_code) }
{
    put(ops, Op::Load(Reg::B, Operand::Reg(Reg::BP)))?;
    put(ops, Op::Jump(Operand::Reg(Reg::B)))
}
