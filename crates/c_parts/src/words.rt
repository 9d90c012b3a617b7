// Arithmetic of words.

ghost use Rattle.std.specs.Prelude.{◌≡◌, ◌<◌, ◌^◌, ◌==◌, not, unsigned_abs};
ghost use Rattle.word24.specs.Word.{number_of};
ghost use Rattle.c_types.specs.Constants as constant;
ghost use Rattle.c_types.specs.Constants.{counted, wrapped, truth, unary_constant, binary_value};
ghost use Rattle.c_types.specs.Seen.{constant_of};
ghost use Rattle.c_store.specs.Values.{Word as WordValue};
ghost use Rattle.c_store.specs.Shown.{value_of, shown};
ghost use Rattle.c_plain.specs.Operators.{truth_value, number_in, converted, word_act, word_result};
ghost use Rattle.c_parts.specs.Shown.{numbered, is_logical};

use c_store::{Act, Kind, Value, as_pointer};
use c_syntax::tree::{BinOp, UnOp};
use c_types::{Constant, binary_constant, unary_constant};
use word24::Word;

/// The word of a value that has to be one.
#[inline(always)]
pub fn word_in(v: Value) -> Result<Word, Act>
    ensures { numbered result ≡ number_in (value_of v) }
{
    match v {
        Value::Word(word) => Ok(word),
        _ => Err(Act::OtherKind),
    }
}

/// What is true is 1, else 0.
#[inline(always)]
pub fn truth_value(b: bool) -> Value
    ensures { value_of result ≡ truth_value b }
{
    Value::Word(Word::wrap(if b { 1 } else { 0 }))
}

/// A value that converts to a kind.
#[inline(always)]
pub fn converted(kind: Kind, v: Value) -> Value
    ensures { value_of result ≡ converted kind (value_of v) }
{
    match kind {
        Kind::Number => v,
        Kind::ObjectPointer | Kind::FunctionPointer => as_pointer(v),
    }
}

/// The number that a word counts as, as unsigned or as int.
#[inline(always)]
pub fn counted(unsigned: bool, word: Word) -> i64
    ensures number { result ≡ counted unsigned (number_of word) }
    ensures small { unsigned_abs result < 2 ^ 24 }
{
    if unsigned {
        i64::from(word.get())
    } else {
        i64::from(word.signed())
    }
}

/// The word that a number is modulo 2^24.
#[inline(always)]
pub fn wrapped(z: i64) -> Value
    ensures { value_of result ≡ WordValue (wrapped z) }
{
    Value::Word(Word::wrap(z.rem_euclid(16777216) as u64))
}

// Why an operator on two words is undefined.
fn word_act(op: BinOp) -> Act
    ensures { result ≡ word_act op }
{
    match op {
        BinOp::Div | BinOp::Mod => Act::ZeroDivisor,
        BinOp::Shl | BinOp::Shr => Act::ShiftCount,
        _ => Act::OtherKind,
    }
}

// What an operator on words comes to.
#[inline(always)]
fn word_result(op: BinOp, value: Constant) -> Result<Value, Act>
    ensures { shown result ≡ word_result op (constant_of value) }
{
    match value {
        Constant::Value(word) => Ok(Value::Word(word)),
        Constant::Undefined(_) => Err(word_act(op)),
        Constant::NotConstant => Err(Act::OtherKind),
    }
}

/// An operator on one word.
#[inline(always)]
pub fn on_word(op: UnOp, x: Word) -> Result<Value, Act>
    ensures { shown result ≡ word_result BinOp.Add (unary_constant op (constant.Value (number_of x))) }
{
    word_result(BinOp::Add, unary_constant(op, Constant::Value(x)))
}

/// A binary operator on two words: whether the left one is unsigned, and whether one of both is.
#[inline(always)]
pub fn on_words(op: BinOp, left: bool, unsigned: bool, x: Word, y: Word) -> Result<Value, Act>
    ensures { shown result ≡ word_result op (binary_value 0 op left unsigned (number_of x) (number_of y)) }
{
    if is_logical(op) {
        return Err(Act::OtherKind);
    }
    word_result(
        op,
        binary_constant(
            0,
            op,
            left,
            unsigned,
            Constant::Value(x),
            Constant::Value(y),
        ),
    )
}

// `&&` and `||` are no operators on two values.
#[inline(always)]
fn is_logical(op: BinOp) -> bool
    ensures { result ≡ is_logical op }
{
    matches!(op, BinOp::Or | BinOp::And)
}
