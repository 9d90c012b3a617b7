//! The words of EIR text.

ghost use Rattle.std.specs.Prelude.{◌≡◌};
ghost use Rattle.std.specs.Str.{bytes_eq};
ghost use Rattle.std.specs.Map.{lookup};
ghost use Rattle.eir_line.specs.Words.{register_of, mnemonic_of};

use eir_core::{Cond, Reg};

/// An operation on a register and a value.
#[derive(Clone, Copy)]
pub enum BinaryOp {
    Mov,
    Add,
    Sub,
    Load,
    Store,
    Set(Cond),
}

/// What a statement's first word says.
#[derive(Clone, Copy)]
pub enum Mnemonic {
    Binary(BinaryOp),
    Putc,
    Getc,
    Exit,
    Dump,
    Jump,
    JumpIf(Cond),
    Text,
    Data,
    Long,
    Bytes,
    Note,
}

/// The register of this name.
#[tactic(auto, unfolding(crate::specs::Words::register_of))]
pub fn register_of(word: &[u8]) -> Option<Reg>
    ensures { result ≡ register_of word.now }
{
    match word {
        b"A" => Some(Reg::A),
        b"B" => Some(Reg::B),
        b"C" => Some(Reg::C),
        b"D" => Some(Reg::D),
        b"SP" => Some(Reg::SP),
        b"BP" => Some(Reg::BP),
        _ => None,
    }
}

const MNEMONICS: [(&[u8], Mnemonic); 28] = [
    (b"mov", Mnemonic::Binary(BinaryOp::Mov)),
    (b"add", Mnemonic::Binary(BinaryOp::Add)),
    (b"sub", Mnemonic::Binary(BinaryOp::Sub)),
    (b"load", Mnemonic::Binary(BinaryOp::Load)),
    (b"store", Mnemonic::Binary(BinaryOp::Store)),
    (b"eq", Mnemonic::Binary(BinaryOp::Set(Cond::Eq))),
    (b"ne", Mnemonic::Binary(BinaryOp::Set(Cond::Ne))),
    (b"lt", Mnemonic::Binary(BinaryOp::Set(Cond::Lt))),
    (b"gt", Mnemonic::Binary(BinaryOp::Set(Cond::Gt))),
    (b"le", Mnemonic::Binary(BinaryOp::Set(Cond::Le))),
    (b"ge", Mnemonic::Binary(BinaryOp::Set(Cond::Ge))),
    (b"putc", Mnemonic::Putc),
    (b"getc", Mnemonic::Getc),
    (b"exit", Mnemonic::Exit),
    (b"dump", Mnemonic::Dump),
    (b"jmp", Mnemonic::Jump),
    (b"jeq", Mnemonic::JumpIf(Cond::Eq)),
    (b"jne", Mnemonic::JumpIf(Cond::Ne)),
    (b"jlt", Mnemonic::JumpIf(Cond::Lt)),
    (b"jgt", Mnemonic::JumpIf(Cond::Gt)),
    (b"jle", Mnemonic::JumpIf(Cond::Le)),
    (b"jge", Mnemonic::JumpIf(Cond::Ge)),
    (b".text", Mnemonic::Text),
    (b".data", Mnemonic::Data),
    (b".long", Mnemonic::Long),
    (b".string", Mnemonic::Bytes),
    (b".file", Mnemonic::Note),
    (b".loc", Mnemonic::Note),
];

// What a table has at a word.
fn meaning(table: &[(&[u8], Mnemonic)], word: &[u8]) -> Option<Mnemonic>
    ensures { result ≡ lookup (λ entry. bytes_eq word.now entry.now) table.now }
{
    for (spelling, meaning) in table {
        if word == *spelling {
            return Some(*meaning);
        }
    }
    None
}

/// What a first word says.
#[tactic(auto, unfolding(crate::specs::Words::mnemonic_of))]
pub fn mnemonic_of(word: &[u8]) -> Option<Mnemonic>
    ensures { result ≡ mnemonic_of word.now }
{
    meaning(&MNEMONICS, word)
}
