// Code with labels.

use eir_core::{Cond, Op, Operand, Reg};

/// Code of EIR with labels, before it is linked.
#[derive(Clone, Copy)]
pub enum Item {
    /// An operation that names no label.
    Does(Op),
    /// Here begins the block of this label.
    Label(u32),
    /// `jmp` to a label.
    Jump(u32),
    /// A conditional jump to a label.
    JumpIf(Cond, u32, Reg, Operand),
    /// `mov` of the number of a label's block.
    MoveLabel(Reg, u32),
}
