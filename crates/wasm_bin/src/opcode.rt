// The opcodes of the instructions.
ghost use Rattle.std.specs.Prelude.{◌≡◌, ◌≢◌, ◌≤◌, true, false, MatchOption};
ghost use Rattle.wasm_bin.specs.Opcode.{Plain, Typed, Index, Access, Reserved, coded, is_block, is_control, is_indexed, is_access, is_sizing, is_comparison, is_arithmetic, is_instruction};

use crate::module::{Instr, MemArg};

/// Whether the opcode opens a block.
#[tactic(auto, unfolding(crate::specs::Opcode::is_block))]
pub fn opens(opcode: u8) -> bool
    ensures { result ≡ is_block opcode }
{
    0x02 <= opcode && opcode <= 0x04
}

/// Whether an index stands behind the opcode.
#[tactic(auto, unfolding(crate::specs::Opcode::is_indexed))]
pub fn has_index(opcode: u8) -> bool
    ensures { result ≡ is_indexed opcode }
{
    opcode == 0x0C || opcode == 0x0D || opcode == 0x10 || (0x20 <= opcode && opcode <= 0x24)
}

/// Whether the opcode reads or writes memory.
#[tactic(auto, unfolding(crate::specs::Opcode::is_access))]
pub fn has_access(opcode: u8) -> bool
    ensures { result ≡ is_access opcode }
{
    opcode == 0x28
        || (0x2C <= opcode && opcode <= 0x2F)
        || opcode == 0x36
        || opcode == 0x3A
        || opcode == 0x3B
}

/// Whether the opcode is of the memory's size.
#[tactic(auto, unfolding(crate::specs::Opcode::is_sizing))]
pub fn sizes(opcode: u8) -> bool
    ensures { result ≡ is_sizing opcode }
{
    opcode == 0x3F || opcode == 0x40
}

/// Whether the opcode compares.
#[tactic(auto, unfolding(crate::specs::Opcode::is_comparison))]
pub fn compares(opcode: u8) -> bool
    ensures { result ≡ is_comparison opcode }
{
    0x45 <= opcode && opcode <= 0x4F
}

/// Whether the opcode computes.
#[tactic(auto, unfolding(crate::specs::Opcode::is_arithmetic))]
pub fn computes(opcode: u8) -> bool
    ensures { result ≡ is_arithmetic opcode }
{
    0x67 <= opcode && opcode <= 0x78
}

/// Whether WebAssembly 1.0 has an instruction of this opcode.
#[tactic(auto, unfolding(crate::specs::Opcode::is_instruction))]
pub fn is_known(opcode: u8) -> bool
    ensures { result ≡ is_instruction opcode }
{
    opcode <= 0x04
        || (0x0B <= opcode && opcode <= 0x11)
        || opcode == 0x1A
        || opcode == 0x1B
        || (0x20 <= opcode && opcode <= 0x24)
        || (0x28 <= opcode && opcode <= 0xBF)
}

/// The instruction that opens a block.
#[tactic(auto, unfolding(crate::specs::Opcode::is_block))]
pub fn block(opcode: u8, gives: bool) -> Instr
    requires { is_block opcode ≡ true }
    ensures { coded result ≡ (opcode, Typed gives) }
{
    match opcode {
        0x02 => Instr::Block(gives),
        0x03 => Instr::Loop(gives),
        _ => Instr::If(gives),
    }
}

/// The instruction without operands that is neither `else` nor on numbers.
#[tactic(auto, unfolding(crate::specs::Opcode::is_control))]
pub fn control(opcode: u8) -> Option<Instr>
    ensures { MatchOption result (is_control opcode ≡ false) (λ i. (coded i ≡ (opcode, Plain)) × (is_control opcode ≡ true)) }
{
    match opcode {
        0x00 => Some(Instr::Unreachable),
        0x01 => Some(Instr::Nop),
        0x0B => Some(Instr::End),
        0x0F => Some(Instr::Return),
        0x1A => Some(Instr::Drop),
        0x1B => Some(Instr::Select),
        _ => None,
    }
}

/// The instruction with an index.
#[tactic(auto, unfolding(crate::specs::Opcode::is_indexed))]
pub fn indexed(opcode: u8, index: u32) -> Instr
    requires { is_indexed opcode ≡ true }
    ensures { coded result ≡ (opcode, Index index) }
{
    match opcode {
        0x0C => Instr::Br(index),
        0x0D => Instr::BrIf(index),
        0x10 => Instr::Call(index),
        0x20 => Instr::LocalGet(index),
        0x21 => Instr::LocalSet(index),
        0x22 => Instr::LocalTee(index),
        0x23 => Instr::GlobalGet(index),
        _ => Instr::GlobalSet(index),
    }
}

/// The instruction that reads or writes memory.
#[tactic(auto, unfolding(crate::specs::Opcode::is_access))]
pub fn access(opcode: u8, m: MemArg) -> Instr
    requires { is_access opcode ≡ true }
    ensures { coded result ≡ (opcode, Access m) }
{
    match opcode {
        0x28 => Instr::Load(m),
        0x2C => Instr::Load8S(m),
        0x2D => Instr::Load8U(m),
        0x2E => Instr::Load16S(m),
        0x2F => Instr::Load16U(m),
        0x36 => Instr::Store(m),
        0x3A => Instr::Store8(m),
        _ => Instr::Store16(m),
    }
}

/// The instruction on the memory's size.
#[tactic(auto, unfolding(crate::specs::Opcode::is_sizing))]
pub fn sizing(opcode: u8) -> Instr
    requires { is_sizing opcode ≡ true }
    ensures { coded result ≡ (opcode, Reserved) }
{
    match opcode {
        0x3F => Instr::MemorySize,
        _ => Instr::MemoryGrow,
    }
}

/// The instruction that compares.
#[tactic(auto, unfolding(crate::specs::Opcode::is_comparison))]
pub fn comparison(opcode: u8) -> Instr
    requires { is_comparison opcode ≡ true }
    ensures { coded result ≡ (opcode, Plain) }
{
    match opcode {
        0x45 => Instr::Eqz,
        0x46 => Instr::Eq,
        0x47 => Instr::Ne,
        0x48 => Instr::LtS,
        0x49 => Instr::LtU,
        0x4A => Instr::GtS,
        0x4B => Instr::GtU,
        0x4C => Instr::LeS,
        0x4D => Instr::LeU,
        0x4E => Instr::GeS,
        _ => Instr::GeU,
    }
}

/// The instruction that computes.
#[tactic(auto, unfolding(crate::specs::Opcode::is_arithmetic))]
pub fn arithmetic(opcode: u8) -> Instr
    requires { is_arithmetic opcode ≡ true }
    ensures { coded result ≡ (opcode, Plain) }
{
    match opcode {
        0x67 => Instr::Clz,
        0x68 => Instr::Ctz,
        0x69 => Instr::Popcnt,
        0x6A => Instr::Add,
        0x6B => Instr::Sub,
        0x6C => Instr::Mul,
        0x6D => Instr::DivS,
        0x6E => Instr::DivU,
        0x6F => Instr::RemS,
        0x70 => Instr::RemU,
        0x71 => Instr::And,
        0x72 => Instr::Or,
        0x73 => Instr::Xor,
        0x74 => Instr::Shl,
        0x75 => Instr::ShrS,
        0x76 => Instr::ShrU,
        0x77 => Instr::Rotl,
        _ => Instr::Rotr,
    }
}
