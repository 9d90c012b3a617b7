// What operators do with values.

ghost use Rattle.std.specs.Prelude.{◌≡◌, ◌<◌, ◌^◌, ◌*ℤ◌, neg_ℤ, pos, unsigned_abs, if◌then◌else◌};
ghost use Rattle.word24.specs.Word.{number_of};
ghost use Rattle.c_store.specs.Shown.{value_of, shown};
ghost use Rattle.c_plain.specs.Operators.{fetched, made, pointer_plus, pointer_less, elements_between, answered, operated, and_then, number_in, word_result};
ghost use Rattle.c_types.specs.Constants.{binary_value, counted};
ghost use Rattle.c_store.specs.Words.{pointer_before};

use crate::words::{converted, counted, on_word, on_words, truth_value, word_in, wrapped};
use c_plain::{Fetch, Operation, Unary};
use c_store::{
    Act, Literal, Store, Value, as_pointer, is_true, member_at, moved, pointer_before,
    pointer_difference, used,
};
use c_syntax::tree::BinOp;
use word24::Word;

/// What a place is worth.
#[inline(always)]
pub fn fetched(literals: &[Literal], store: &Store, how: Fetch, p: Value) -> Result<Value, Act>
    ensures { shown result ≡ fetched literals.now store.now how (value_of p) }
{
    match how {
        Fetch::Place => Ok(p),
        Fetch::Nothing => Ok(Value::Missing),
        Fetch::Cell(kind) => store.load(literals, kind, p),
        Fetch::Refused => Err(Act::OtherKind),
    }
}

/// What is made of one value.
#[inline(always)]
pub fn made(literals: &[Literal], store: &Store, unary: Unary, v: Value) -> Result<Value, Act>
    ensures { shown result ≡ made literals.now store.now unary (value_of v) }
{
    match unary {
        Unary::Use => used(v),
        Unary::Forget => Ok(Value::Missing),
        Unary::Truth => Ok(truth_value(is_true(v))),
        Unary::Negate => Ok(truth_value(!is_true(v))),
        Unary::Convert(kind) => Ok(converted(kind, v)),
        Unary::CheckWord => match word_in(v) {
            Ok(word) => Ok(Value::Word(word)),
            Err(act) => Err(act),
        },
        Unary::Fetch(how) => fetched(literals, store, how, v),
        Unary::Member(cells) => member_at(literals, cells, v),
        Unary::OneWord(op) => match word_in(v) {
            Ok(word) => on_word(op, word),
            Err(act) => Err(act),
        },
    }
}

// How many cells so many elements of so many words are.
#[inline(always)]
fn cells_of(unsigned: bool, count: Word, words: u32) -> i64
    ensures number { result ≡ counted unsigned (number_of count) *ℤ pos words }
    ensures small { unsigned_abs result < 2 ^ 57 }
{
    cells(counted(unsigned, count), i64::from(words))
}

// The product of two numbers.
#[inline(always)]
fn cells(count: i64, words: i64) -> i64
    requires count { unsigned_abs count < 2 ^ 24 }
    requires words { unsigned_abs words < 2 ^ 32 }
    ensures number { result ≡ count *ℤ words }
    ensures small { unsigned_abs result < 2 ^ 57 }
{
    count * words
}

// The number below zero of the same size.
#[inline(always)]
fn negated(number: i64) -> i64
    requires { unsigned_abs number < 2 ^ 57 }
    ensures { result ≡ neg_ℤ number }
{
    -number
}

// A pointer that moves by a number of elements of so many words.
#[inline(always)]
fn pointer_plus(
    literals: &[Literal],
    unsigned: bool,
    words: u32,
    p: Value,
    y: Value,
) -> Result<Value, Act>
    ensures { shown result ≡ pointer_plus literals.now unsigned words (value_of p) (value_of y) }
{
    match word_in(y) {
        Ok(count) => moved(literals, p, cells_of(unsigned, count, words)),
        Err(act) => Err(act),
    }
}

// A pointer that moves back by a number of elements of so many words.
#[inline(always)]
fn pointer_less(
    literals: &[Literal],
    unsigned: bool,
    words: u32,
    p: Value,
    y: Value,
) -> Result<Value, Act>
    ensures { shown result ≡ pointer_less literals.now unsigned words (value_of p) (value_of y) }
{
    match word_in(y) {
        Ok(count) => moved(literals, p, negated(cells_of(unsigned, count, words))),
        Err(act) => Err(act),
    }
}

// How many elements of so many words lie between two pointers.
fn elements_between(literals: &[Literal], words: u32, x: Value, y: Value) -> Result<Value, Act>
    ensures { shown result ≡ elements_between literals.now words (value_of x) (value_of y) }
{
    if words == 0 {
        return Err(Act::HelperLimit);
    }
    match pointer_difference(literals, words, x, y) {
        Ok(count) => Ok(wrapped(count)),
        Err(act) => Err(act),
    }
}

// Whether a test is met, or else whether not.
#[inline(always)]
fn answered(negated: bool, test: Result<bool, Act>) -> Result<Value, Act>
    ensures { shown result ≡ answered negated test }
{
    match test {
        Ok(met) => Ok(truth_value(if negated { !met } else { met })),
        Err(act) => Err(act),
    }
}

// Whether the left of two pointers lies before the right one, or the other way round.
fn before(literals: &[Literal], swapped: bool, x: Value, y: Value) -> Result<bool, Act>
    ensures { result ≡ (if swapped then pointer_before literals.now (value_of y) (value_of x) else pointer_before literals.now (value_of x) (value_of y)) }
{
    if swapped {
        pointer_before(literals, y, x)
    } else {
        pointer_before(literals, x, y)
    }
}

// A binary operator on two words.
#[inline(always)]
fn on_two(op: BinOp, left: bool, unsigned: bool, x: Value, y: Value) -> Result<Value, Act>
    ensures { shown result ≡ and_then (number_in (value_of x)) (λ k. and_then (number_in (value_of y)) (λ n. word_result op (binary_value 0 op left unsigned k n))) }
{
    match word_in(x) {
        Ok(first) => match word_in(y) {
            Ok(second) => on_words(op, left, unsigned, first, second),
            Err(act) => Err(act),
        },
        Err(act) => Err(act),
    }
}

/// What a binary operator gives.
#[inline(always)]
pub fn operated(
    literals: &[Literal],
    store: &Store,
    operation: Operation,
    x: Value,
    y: Value,
) -> Result<Value, Act>
    ensures { shown result ≡ operated literals.now store.now operation (value_of x) (value_of y) }
{
    match operation {
        Operation::Words(op, left, unsigned) => on_two(op, left, unsigned, x, y),
        Operation::PointerPlus(unsigned, words) => pointer_plus(literals, unsigned, words, x, y),
        Operation::PlusPointer(unsigned, words) => pointer_plus(literals, unsigned, words, y, x),
        Operation::PointerLess(unsigned, words) => pointer_less(literals, unsigned, words, x, y),
        Operation::Difference(words) => elements_between(literals, words, x, y),
        Operation::Equal(kind, negated) => answered(
            negated,
            store.equal_pointers(literals, kind, as_pointer(x), as_pointer(y)),
        ),
        Operation::Before(swapped, negated) => answered(negated, before(literals, swapped, x, y)),
    }
}
