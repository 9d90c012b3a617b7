// A comparison that a conditional jump asks for.

ghost use Rattle.std.specs.Prelude.{◌≡◌, ◌+◌, ◌*◌, ◌^◌, ◌<◌, nat_eq, cond as choice, OnOk, OnErr};
ghost use Rattle.word24.specs.Word.{number_of};
ghost use Rattle.bf_tape.specs.Tape.{get, put};
ghost use Rattle.bf_tape.specs.Piece.{joined, Adds};
ghost use Rattle.bf_word.specs.Word.{word_in, with_word};
ghost use Rattle.bf_ops.specs.Frame.{cell_of, value_in, is_negated, IsAside, IsFrame};
ghost use Rattle.bf_ops.specs.OpsCode.{bring_code, bring_cell};
ghost use Rattle.bf_jump.specs.Pose.{turns, is_near, is_sameness, is_turned, words_posed, posed_far, posed_near, posed, posed_as, both_code, words_code, words_cell, flag_code, flag_cell, is_told_near, far_code, near_code, pose_code, IsReady};

use bf_ops::{cell_of, is_negated};
use bf_tape::Frag;
use bf_word::{append, aside, dup_word, equals, set};
use eir_core::{Cond, Operand, Reg};
use std::alloc::AllocError;
use word24::Word;

// The two words that are compared: the last cells of C's counter, and of B's.
pub(crate) const FIRST: u32 = 87;

pub(crate) const SECOND: u32 = 97;

// The cells that tell that they are compared by equality, that something is asked, and what the answer is taken from.
pub(crate) const SAMENESS: u32 = 47;

pub(crate) const ASKED: u32 = 48;

pub(crate) const ANSWER: u32 = 49;

// How far a byte is from 0, either way round.
fn turns(byte: u32) -> u32
    requires { byte < 256 }
    ensures { result ≡ turns byte }
{
    if byte > 128 { 256 - byte } else { byte }
}

// Whether a register is compared to a constant where it stands.
fn is_near(word: Word) -> bool
    ensures { result ≡ is_near (number_of word) }
{
    let number = word.get();
    turns(number % 256) + turns(number / 256 % 256) + turns(number / 65536 % 256) <= 128
}

// Whether a comparison is by equality.
fn is_sameness(test: Cond) -> bool
    ensures { result ≡ is_sameness test }
{
    match test {
        Cond::Eq | Cond::Ne => true,
        Cond::Lt | Cond::Ge | Cond::Gt | Cond::Le => false,
    }
}

// Whether the value comes before the register.
fn is_turned(test: Cond) -> bool
    ensures { result ≡ is_turned test }
{
    match test {
        Cond::Gt | Cond::Le => true,
        Cond::Eq | Cond::Ne | Cond::Lt | Cond::Ge => false,
    }
}

// The operand's word in three cells beside the registers', which are 0.
fn bring(f: &mut Frag, operand: Operand, to: u32) -> Result<(), AllocError>
    requires aside { IsAside to }
    requires high { to < 172 }
    ensures code { OnOk result (f.new ≡ joined f.old (bring_code f.old.cell operand to) (bring_cell operand to)) }
    ensures effect { OnOk result (Adds f.old f.new (IsReady to) (λ input s. with_word s to (value_in s operand)) (3 * 2 ^ 20) (3 * 2 ^ 11)) }
    ensures err { OnErr result (f.new ≡ f.old) }
{
    match operand {
        Operand::Reg(reg) => {
            let cell = cell_of(reg);
            dup_word(f, cell, to, cell + 3)
        }
        Operand::Imm(word) => set(f, to, word),
    }
}

// Two words, the first one in the cells 87 to 89 and the other in 97 to 99.
fn both(f: &mut Frag, first: Operand, second: Operand) -> Result<(), AllocError>
    ensures code { OnOk result (f.new ≡ joined f.old (both_code f.old.cell first second) (bring_cell second 97)) }
    ensures effect { OnOk result (Adds f.old f.new IsFrame (λ input s. words_posed s (value_in s first) (value_in s second)) (6 * 2 ^ 20) (3 * 2 ^ 12)) }
    ensures err { OnErr result (f.new ≡ f.old) }
{
    let mut piece = aside(f);
    bring(&mut piece, first, FIRST)?;
    bring(&mut piece, second, SECOND)?;
    append(f, &piece)
}

// A cell that is 0 becomes 1, if so.
fn raise_flag(f: &mut Frag, cell: u32, on: bool) -> Result<(), AllocError>
    requires { cell < 256 }
    ensures code { OnOk result (f.new ≡ joined f.old (flag_code f.old.cell cell on) (flag_cell f.old.cell cell on)) }
    ensures effect { OnOk result (Adds f.old f.new (λ s. get s cell ≡ 0) (λ input s. put s cell (choice on 1 0)) 512 512) }
    ensures err { OnErr result (f.new ≡ f.old) }
{
    if on {
        return f.add_const(cell, 1);
    }
    Ok(())
}

// A register and a value, the one that is to be less first.
fn words(f: &mut Frag, test: Cond, reg: Reg, operand: Operand) -> Result<(), AllocError>
    ensures code { OnOk result (f.new ≡ joined f.old (words_code f.old.cell test reg operand) (words_cell test reg operand)) }
    ensures effect { OnOk result (Adds f.old f.new IsFrame (λ input s. choice (is_turned test) (words_posed s (value_in s operand) (word_in s (cell_of reg))) (words_posed s (word_in s (cell_of reg)) (value_in s operand))) (6 * 2 ^ 20) (3 * 2 ^ 12)) }
    ensures err { OnErr result (f.new ≡ f.old) }
{
    if is_turned(test) {
        return both(f, operand, Operand::Reg(reg));
    }
    both(f, Operand::Reg(reg), operand)
}

// A register and a value posed.
fn pose_far(f: &mut Frag, test: Cond, reg: Reg, operand: Operand) -> Result<(), AllocError>
    ensures code { OnOk result (f.new ≡ joined f.old (far_code f.old.cell test reg operand) 48) }
    ensures effect { OnOk result (Adds f.old f.new IsFrame (λ input s. posed_far test reg operand s) (7 * 2 ^ 20) (2 ^ 14)) }
    ensures err { OnErr result (f.new ≡ f.old) }
{
    let mut piece = aside(f);
    words(&mut piece, test, reg, operand)?;
    raise_flag(&mut piece, SAMENESS, is_sameness(test))?;
    raise_flag(&mut piece, ANSWER, is_negated(test))?;
    piece.add_const(ASKED, 1)?;
    append(f, &piece)
}

// A register compared to a constant where it stands.
fn pose_near(f: &mut Frag, test: Cond, reg: Reg, word: Word) -> Result<(), AllocError>
    ensures code { OnOk result (f.new ≡ joined f.old (near_code f.old.cell (is_negated test) reg (number_of word)) 48) }
    ensures effect { OnOk result (Adds f.old f.new IsFrame (λ input s. posed_near test reg (number_of word) s) (7 * 2 ^ 20) (2 ^ 14)) }
    ensures err { OnErr result (f.new ≡ f.old) }
{
    let cell = cell_of(reg);
    let mut piece = aside(f);
    equals(&mut piece, cell, word, ANSWER)?;
    raise_flag(&mut piece, SECOND, is_negated(test))?;
    piece.add_const(ASKED, 1)?;
    append(f, &piece)
}

// Whether a comparison to a constant is told where the register stands.
fn is_told_near(test: Cond, word: Word) -> bool
    ensures { result ≡ is_told_near test (number_of word) }
{
    is_sameness(test) && is_near(word)
}

// A register and a constant posed.
fn pose_constant(f: &mut Frag, test: Cond, reg: Reg, word: Word) -> Result<(), AllocError>
    ensures code { OnOk result (f.new ≡ joined f.old (pose_code f.old.cell test reg (Operand.Imm word)) 48) }
    ensures effect { OnOk result (Adds f.old f.new IsFrame (λ input s. posed test reg (Operand.Imm word) s) (7 * 2 ^ 20) (2 ^ 14)) }
    ensures err { OnErr result (f.new ≡ f.old) }
{
    if is_told_near(test, word) {
        return pose_near(f, test, reg, word);
    }
    pose_far(f, test, reg, Operand::Imm(word))
}

/// A comparison of a register with a value is asked for: two words of which one text tells whether it holds, and the cell 48
/// raised. Whether a register is a constant near 0 is told where it stands, without a copy.
pub fn pose(f: &mut Frag, test: Cond, reg: Reg, operand: Operand) -> Result<(), AllocError>
    ensures code { OnOk result (f.new ≡ joined f.old (pose_code f.old.cell test reg operand) 48) }
    ensures effect { OnOk result (Adds f.old f.new IsFrame (λ input s. posed test reg operand s) (7 * 2 ^ 20) (2 ^ 14)) }
    ensures err { OnErr result (f.new ≡ f.old) }
{
    match operand {
        Operand::Imm(word) => pose_constant(f, test, reg, word),
        Operand::Reg(other) => pose_far(f, test, reg, Operand::Reg(other)),
    }
}
