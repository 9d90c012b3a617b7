// The sample program.
ghost use Rattle.std.specs.Prelude.{◌≡◌, ◌<◌, ◌≤◌, ◌+◌, map, IfOk, vec_len};
ghost use Rattle.std.specs.List.{range_with_len};
ghost use Rattle.elvm_sample.specs.Program.{constant, sample_block, sample_program, wrapped};

use eir_core::{Op, Operand, Program, Reg};
use std::alloc::{AllocError, Global};
use word24::Word;

// The word that a number is modulo 2^24.
fn wrapped(number: u64) -> Word
    ensures { result ≡ wrapped number }
{
    Word::wrap(number)
}

// The operand that is this word.
fn constant(number: u32) -> Operand
    ensures { result ≡ constant number }
{
    Operand::Imm(wrapped(number as u64))
}

// The block of this number.
fn sample_block(alloc: Global, k: u32) -> Result<Vec<Op>, AllocError>
    requires { k < 20000 }
    ensures { IfOk result (λ ops. ops.items ≡ sample_block k) }
{
    let ops = [
        Op::Add(Reg::A, constant((7 * k + 3) % 251)),
        Op::Store(Reg::A, constant(k)),
        Op::Load(Reg::B, constant(k)),
        Op::Putc(Operand::Reg(Reg::B)),
        Op::Jump(constant(k + 1)),
    ];
    ops.to_vec(alloc)
}

// The blocks of the numbers below `n`.
fn sample_blocks(alloc: Global, n: u32) -> Result<Vec<Vec<Op>>, AllocError>
    requires { n ≤ 20000 }
    ensures blocks { IfOk result (λ blocks. map (λ ops. ops.items) blocks.items ≡ map sample_block (range_with_len 0 n)) }
    ensures few { IfOk result (λ blocks. vec_len blocks ≤ 20000) }
{
    let mut blocks = Vec::new(alloc);
    for k in 0..n {
        blocks.push(sample_block(alloc, k)?)?;
    }
    Ok(blocks)
}

/// The program of `n` blocks, of which each writes one byte and goes to the next.
pub fn sample_program(alloc: Global, n: u32) -> Result<Program, AllocError>
    requires { n ≤ 20000 }
    ensures { IfOk result (λ program. program ≡ sample_program n) }
{
    let blocks = sample_blocks(alloc, n)?;
    let Ok(program) = Program::new(blocks, Vec::new(alloc), 0) else {
        unreachable!()
    };
    Ok(program)
}
