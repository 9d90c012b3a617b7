// Operators on words.

ghost use Rattle.std.specs.Prelude.{◌≡◌, ℕ, ◌*◌, ◌<◌, ◌^◌, pos, ◌≤ℤ◌, ◌+ℤ◌, ◌-ℤ◌, ◌*ℤ◌, neg_ℤ, int_lt, int_div, int_rem, bit_and, bit_or, bit_xor, unsigned_abs, not, ◌==◌};
ghost use Rattle.std.specs.Int.{int_div_euclid};
ghost use Rattle.word24.specs.Word.{number_of};
ghost use Rattle.c_types.specs.Constants.{counted, wrapped, truth, binary_value, divided, shifted};
ghost use Rattle.c_types.specs.Seen.{constant_of};

use crate::constant::Constant;
use c_syntax::tree::BinOp;
use word24::Word;

// The number that a word counts as, as unsigned or as int.
pub fn counted(unsigned: bool, word: Word) -> i64
    ensures number { result ≡ counted unsigned (number_of word) }
    ensures small { unsigned_abs result < 2 ^ 24 }
    ensures zero { unsigned_abs result ≡ 0 → number_of word ≡ 0 }
{
    if unsigned {
        i64::from(word.get())
    } else {
        i64::from(word.signed())
    }
}

// The word that a number is modulo 2^24.
pub fn wrapped(z: i64) -> Word
    ensures { number_of result ≡ wrapped z }
{
    Word::wrap(z.rem_euclid(16777216) as u64)
}

pub fn truth(b: bool) -> Word
    ensures { number_of result ≡ truth b }
{
    Word::wrap(if b { 1 } else { 0 })
}

fn sum(x: i64, y: i64) -> Word
    requires left { unsigned_abs x < 2 ^ 24 }
    requires right { unsigned_abs y < 2 ^ 24 }
    ensures { number_of result ≡ wrapped (x +ℤ y) }
{
    wrapped(x + y)
}

fn difference(x: i64, y: i64) -> Word
    requires left { unsigned_abs x < 2 ^ 24 }
    requires right { unsigned_abs y < 2 ^ 24 }
    ensures { number_of result ≡ wrapped (x -ℤ y) }
{
    wrapped(x - y)
}

fn product(x: i64, y: i64) -> Word
    requires left { unsigned_abs x < 2 ^ 24 }
    requires right { unsigned_abs y < 2 ^ 24 }
    ensures { number_of result ≡ wrapped (x *ℤ y) }
{
    wrapped(x * y)
}

// The quotient, truncated toward zero.
fn quotient_of(x: i64, y: i64) -> Word
    requires left { unsigned_abs x < 2 ^ 24 }
    requires right { unsigned_abs y < 2 ^ 24 }
    requires divides { 0 < unsigned_abs y }
    ensures { number_of result ≡ wrapped (int_div x y) }
{
    wrapped(x / y)
}

// What is left, with the sign of the dividend.
fn remainder_of(x: i64, y: i64) -> Word
    requires left { unsigned_abs x < 2 ^ 24 }
    requires right { unsigned_abs y < 2 ^ 24 }
    requires divides { 0 < unsigned_abs y }
    ensures { number_of result ≡ wrapped (int_rem x y) }
{
    wrapped(x % y)
}

fn quotient(at: u32, unsigned: bool, x: Word, y: Word) -> Constant
    ensures { constant_of result ≡ divided int_div unsigned at (number_of x) (number_of y) }
{
    if y.get() == 0 {
        Constant::Undefined(at)
    } else {
        Constant::Value(quotient_of(counted(unsigned, x), counted(unsigned, y)))
    }
}

fn remainder(at: u32, unsigned: bool, x: Word, y: Word) -> Constant
    ensures { constant_of result ≡ divided int_rem unsigned at (number_of x) (number_of y) }
{
    if y.get() == 0 {
        Constant::Undefined(at)
    } else {
        Constant::Value(remainder_of(counted(unsigned, x), counted(unsigned, y)))
    }
}

fn shifted_left(at: u32, x: Word, y: Word) -> Constant
    ensures { constant_of result ≡ shifted at (number_of y) (wrapped (pos (number_of x * 2 ^ number_of y))) }
{
    let count = y.get();
    if count < 24 {
        Constant::Value(Word::wrap(u64::from(x.get()) << count))
    } else {
        Constant::Undefined(at)
    }
}

fn shifted_right(at: u32, unsigned: bool, x: Word, y: Word) -> Constant
    ensures { constant_of result ≡ shifted at (number_of y) (wrapped (int_div_euclid (counted unsigned (number_of x)) (pos (2 ^ number_of y)))) }
{
    let count = y.get();
    if count < 24 {
        Constant::Value(wrapped(counted(unsigned, x).div_euclid(i64::from(1u32 << count))))
    } else {
        Constant::Undefined(at)
    }
}

fn bits_of_both(x: Word, y: Word) -> Word
    ensures { number_of result ≡ bit_and (number_of x) (number_of y) }
{
    Word::wrap(u64::from(x.get() & y.get()))
}

fn bits_of_either(x: Word, y: Word) -> Word
    ensures { number_of result ≡ bit_or (number_of x) (number_of y) }
{
    Word::wrap(u64::from(x.get() | y.get()))
}

fn bits_of_one(x: Word, y: Word) -> Word
    ensures { number_of result ≡ bit_xor (number_of x) (number_of y) }
{
    Word::wrap(u64::from(x.get() ^ y.get()))
}

fn equal(x: Word, y: Word) -> bool
    ensures { result ≡ (number_of x == number_of y) }
{
    x.get() == y.get()
}

fn below(unsigned: bool, x: Word, y: Word) -> bool
    ensures { result ≡ int_lt (counted unsigned (number_of x)) (counted unsigned (number_of y)) }
{
    counted(unsigned, x) < counted(unsigned, y)
}

// A binary operator other than `&&` and `||` on two words: whether its left operand is unsigned, which a shift
// asks, and whether one of both is.
pub fn binary_value(at: u32, op: BinOp, left: bool, unsigned: bool, x: Word, y: Word) -> Constant
    ensures { constant_of result ≡ binary_value at op left unsigned (number_of x) (number_of y) }
{
    match op {
        BinOp::Or | BinOp::And => Constant::NotConstant,
        BinOp::BitOr => Constant::Value(bits_of_either(x, y)),
        BinOp::BitXor => Constant::Value(bits_of_one(x, y)),
        BinOp::BitAnd => Constant::Value(bits_of_both(x, y)),
        BinOp::Eq => Constant::Value(truth(equal(x, y))),
        BinOp::Ne => Constant::Value(truth(!equal(x, y))),
        BinOp::Lt => Constant::Value(truth(below(unsigned, x, y))),
        BinOp::Gt => Constant::Value(truth(below(unsigned, y, x))),
        BinOp::Le => Constant::Value(truth(!below(unsigned, y, x))),
        BinOp::Ge => Constant::Value(truth(!below(unsigned, x, y))),
        BinOp::Shl => shifted_left(at, x, y),
        BinOp::Shr => shifted_right(at, left, x, y),
        BinOp::Add => Constant::Value(sum(counted(unsigned, x), counted(unsigned, y))),
        BinOp::Sub => Constant::Value(difference(counted(unsigned, x), counted(unsigned, y))),
        BinOp::Mul => Constant::Value(product(counted(unsigned, x), counted(unsigned, y))),
        BinOp::Div => quotient(at, unsigned, x, y),
        BinOp::Mod => remainder(at, unsigned, x, y),
    }
}
