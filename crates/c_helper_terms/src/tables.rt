// The helper functions, by the steps of their bodies.

use c_helper_steps::{Step, TypeName};
use c_syntax::tree::BinOp;

// A turn for each bit of a: r is doubled, and gains b where the bit is set.
const PRODUCT: [Step; 21] = [
    Step::Open,
    Step::Number(0),
    Step::Local(TypeName::Int, b"r"),
    Step::Number(24),
    Step::Local(TypeName::Int, b"n"),
    Step::Open,
    Step::Lower(b"n"),
    Step::Double(b"r"),
    Step::Name(b"r"),
    Step::Name(b"b"),
    Step::Operation(BinOp::Add),
    Step::Set(b"r"),
    Step::Negative(b"a"),
    Step::If,
    Step::Double(b"a"),
    Step::Close,
    Step::Name(b"n"),
    Step::While,
    Step::Name(b"r"),
    Step::Return,
    Step::Close,
];

// A turn for each bit of a, that goes into the rest r as the quotient comes into a.
const UNSIGNED_QUOTIENT: [Step; 41] = [
    Step::Open,
    Step::Name(b"b"),
    Step::Name(b"a"),
    Step::Operation(BinOp::Le),
    Step::Return,
    Step::Name(b"b"),
    Step::Cast(TypeName::Int),
    Step::Number(0),
    Step::Operation(BinOp::Lt),
    Step::If,
    Step::Number(0),
    Step::Local(TypeName::Unsigned, b"r"),
    Step::Number(24),
    Step::Local(TypeName::Int, b"n"),
    Step::Open,
    Step::Lower(b"n"),
    Step::Double(b"r"),
    Step::Raise(b"r"),
    Step::Name(b"a"),
    Step::Cast(TypeName::Int),
    Step::Number(0),
    Step::Operation(BinOp::Lt),
    Step::If,
    Step::Double(b"a"),
    Step::Open,
    Step::Name(b"r"),
    Step::Name(b"b"),
    Step::Operation(BinOp::Sub),
    Step::Set(b"r"),
    Step::Raise(b"a"),
    Step::Close,
    Step::Name(b"b"),
    Step::Name(b"r"),
    Step::Operation(BinOp::Le),
    Step::If,
    Step::Close,
    Step::Name(b"n"),
    Step::While,
    Step::Name(b"a"),
    Step::Return,
    Step::Close,
];

// The quotient of the absolute values, with the sign that both give.
const INT_QUOTIENT: [Step; 32] = [
    Step::Open,
    Step::Name(b"a"),
    Step::Local(TypeName::Int, b"p"),
    Step::Name(b"a"),
    Step::Minus,
    Step::Set(b"p"),
    Step::Negative(b"a"),
    Step::If,
    Step::Name(b"b"),
    Step::Local(TypeName::Int, b"q"),
    Step::Name(b"b"),
    Step::Minus,
    Step::Set(b"q"),
    Step::Negative(b"b"),
    Step::If,
    Step::Fresh(TypeName::Int, b"r"),
    Step::Name(b"p"),
    Step::Argument,
    Step::Name(b"q"),
    Step::Argument,
    Step::Call(b"unsigned /"),
    Step::Set(b"r"),
    Step::Name(b"r"),
    Step::Return,
    Step::Negative(b"a"),
    Step::Negative(b"b"),
    Step::Operation(BinOp::Eq),
    Step::If,
    Step::Name(b"r"),
    Step::Minus,
    Step::Return,
    Step::Close,
];

// What a has more than b as often as the quotient says.
const UNSIGNED_REMAINDER: [Step; 20] = [
    Step::Open,
    Step::Fresh(TypeName::Unsigned, b"q"),
    Step::Name(b"a"),
    Step::Argument,
    Step::Name(b"b"),
    Step::Argument,
    Step::Call(b"unsigned /"),
    Step::Set(b"q"),
    Step::Fresh(TypeName::Unsigned, b"r"),
    Step::Name(b"b"),
    Step::Argument,
    Step::Name(b"q"),
    Step::Argument,
    Step::Call(b"*"),
    Step::Set(b"r"),
    Step::Name(b"a"),
    Step::Name(b"r"),
    Step::Operation(BinOp::Sub),
    Step::Return,
    Step::Close,
];

const INT_REMAINDER: [Step; 20] = [
    Step::Open,
    Step::Fresh(TypeName::Int, b"q"),
    Step::Name(b"a"),
    Step::Argument,
    Step::Name(b"b"),
    Step::Argument,
    Step::Call(b"int /"),
    Step::Set(b"q"),
    Step::Fresh(TypeName::Int, b"r"),
    Step::Name(b"b"),
    Step::Argument,
    Step::Name(b"q"),
    Step::Argument,
    Step::Call(b"*"),
    Step::Set(b"r"),
    Step::Name(b"a"),
    Step::Name(b"r"),
    Step::Operation(BinOp::Sub),
    Step::Return,
    Step::Close,
];

// A turn for each bit of a and b: r is doubled, and gains 1 where the test says so.
const BITS_AND: [Step; 21] = [
    Step::Open,
    Step::Number(0),
    Step::Local(TypeName::Int, b"r"),
    Step::Number(24),
    Step::Local(TypeName::Int, b"n"),
    Step::Open,
    Step::Lower(b"n"),
    Step::Double(b"r"),
    Step::Raise(b"r"),
    Step::Negative(b"a"),
    Step::Negative(b"b"),
    Step::Operation(BinOp::And),
    Step::If,
    Step::Double(b"a"),
    Step::Double(b"b"),
    Step::Close,
    Step::Name(b"n"),
    Step::While,
    Step::Name(b"r"),
    Step::Return,
    Step::Close,
];

const BITS_OR: [Step; 21] = [
    Step::Open,
    Step::Number(0),
    Step::Local(TypeName::Int, b"r"),
    Step::Number(24),
    Step::Local(TypeName::Int, b"n"),
    Step::Open,
    Step::Lower(b"n"),
    Step::Double(b"r"),
    Step::Raise(b"r"),
    Step::Negative(b"a"),
    Step::Negative(b"b"),
    Step::Operation(BinOp::Or),
    Step::If,
    Step::Double(b"a"),
    Step::Double(b"b"),
    Step::Close,
    Step::Name(b"n"),
    Step::While,
    Step::Name(b"r"),
    Step::Return,
    Step::Close,
];

const BITS_XOR: [Step; 21] = [
    Step::Open,
    Step::Number(0),
    Step::Local(TypeName::Int, b"r"),
    Step::Number(24),
    Step::Local(TypeName::Int, b"n"),
    Step::Open,
    Step::Lower(b"n"),
    Step::Double(b"r"),
    Step::Raise(b"r"),
    Step::Negative(b"a"),
    Step::Negative(b"b"),
    Step::Operation(BinOp::Ne),
    Step::If,
    Step::Double(b"a"),
    Step::Double(b"b"),
    Step::Close,
    Step::Name(b"n"),
    Step::While,
    Step::Name(b"r"),
    Step::Return,
    Step::Close,
];

const COMPLEMENT: [Step; 7] = [
    Step::Open,
    Step::Number(1),
    Step::Minus,
    Step::Name(b"a"),
    Step::Operation(BinOp::Sub),
    Step::Return,
    Step::Close,
];

const SHIFT_LEFT: [Step; 10] = [
    Step::Open,
    Step::Open,
    Step::Lower(b"n"),
    Step::Double(b"a"),
    Step::Close,
    Step::Name(b"n"),
    Step::While,
    Step::Name(b"a"),
    Step::Return,
    Step::Close,
];

// The quotient by a power of two.
const UNSIGNED_SHIFT_RIGHT: [Step; 15] = [
    Step::Open,
    Step::Fresh(TypeName::Unsigned, b"b"),
    Step::Number(1),
    Step::Argument,
    Step::Name(b"n"),
    Step::Argument,
    Step::Call(b"<<"),
    Step::Set(b"b"),
    Step::Name(b"a"),
    Step::Argument,
    Step::Name(b"b"),
    Step::Argument,
    Step::Call(b"unsigned /"),
    Step::Return,
    Step::Close,
];

// Of a number below zero all bits are turned, before and behind.
const INT_SHIFT_RIGHT: [Step; 27] = [
    Step::Open,
    Step::Open,
    Step::Fresh(TypeName::Int, b"r"),
    Step::Number(1),
    Step::Minus,
    Step::Name(b"a"),
    Step::Operation(BinOp::Sub),
    Step::Argument,
    Step::Name(b"n"),
    Step::Argument,
    Step::Call(b"unsigned >>"),
    Step::Set(b"r"),
    Step::Number(1),
    Step::Minus,
    Step::Name(b"r"),
    Step::Operation(BinOp::Sub),
    Step::Return,
    Step::Close,
    Step::Negative(b"a"),
    Step::If,
    Step::Name(b"a"),
    Step::Argument,
    Step::Name(b"n"),
    Step::Argument,
    Step::Call(b"unsigned >>"),
    Step::Return,
    Step::Close,
];

// A pointer that is moved by n elements of k words.
const POINTER_SUM: [Step; 14] = [
    Step::Open,
    Step::Fresh(TypeName::Int, b"r"),
    Step::Name(b"n"),
    Step::Argument,
    Step::Name(b"k"),
    Step::Argument,
    Step::Call(b"*"),
    Step::Set(b"r"),
    Step::Name(b"p"),
    Step::Cast(TypeName::ToInt),
    Step::Name(b"r"),
    Step::Operation(BinOp::Add),
    Step::Return,
    Step::Close,
];

const SWAPPED_SUM: [Step; 10] = [
    Step::Open,
    Step::Name(b"p"),
    Step::Argument,
    Step::Name(b"n"),
    Step::Argument,
    Step::Name(b"k"),
    Step::Argument,
    Step::Call(b"pointer + int"),
    Step::Return,
    Step::Close,
];

const UNSIGNED_SWAPPED_SUM: [Step; 10] = [
    Step::Open,
    Step::Name(b"p"),
    Step::Argument,
    Step::Name(b"n"),
    Step::Argument,
    Step::Name(b"k"),
    Step::Argument,
    Step::Call(b"pointer + unsigned"),
    Step::Return,
    Step::Close,
];

// The pointer to which p points is moved, and given.
const MOVING_SUM: [Step; 16] = [
    Step::Open,
    Step::Name(b"p"),
    Step::Cast(TypeName::ToPointer),
    Step::Deref,
    Step::Name(b"p"),
    Step::Cast(TypeName::ToPointer),
    Step::Deref,
    Step::Argument,
    Step::Name(b"n"),
    Step::Argument,
    Step::Name(b"k"),
    Step::Argument,
    Step::Call(b"pointer + int"),
    Step::Assign,
    Step::Return,
    Step::Close,
];

const UNSIGNED_MOVING_SUM: [Step; 16] = [
    Step::Open,
    Step::Name(b"p"),
    Step::Cast(TypeName::ToPointer),
    Step::Deref,
    Step::Name(b"p"),
    Step::Cast(TypeName::ToPointer),
    Step::Deref,
    Step::Argument,
    Step::Name(b"n"),
    Step::Argument,
    Step::Name(b"k"),
    Step::Argument,
    Step::Call(b"pointer + unsigned"),
    Step::Assign,
    Step::Return,
    Step::Close,
];

// It is moved, and given as it was.
const POINTER_STEP: [Step; 17] = [
    Step::Open,
    Step::Name(b"p"),
    Step::Cast(TypeName::ToPointer),
    Step::Deref,
    Step::Local(TypeName::ToAny, b"q"),
    Step::Name(b"p"),
    Step::Cast(TypeName::ToPointer),
    Step::Deref,
    Step::Name(b"q"),
    Step::Cast(TypeName::ToInt),
    Step::Name(b"k"),
    Step::Operation(BinOp::Add),
    Step::Assign,
    Step::Do,
    Step::Name(b"q"),
    Step::Return,
    Step::Close,
];

const POINTER_DIFFERENCE: [Step; 14] = [
    Step::Open,
    Step::Name(b"p"),
    Step::Cast(TypeName::ToInt),
    Step::Name(b"q"),
    Step::Cast(TypeName::ToInt),
    Step::Operation(BinOp::Sub),
    Step::Local(TypeName::Int, b"r"),
    Step::Name(b"r"),
    Step::Argument,
    Step::Name(b"k"),
    Step::Argument,
    Step::Call(b"int /"),
    Step::Return,
    Step::Close,
];

// How often b is in a is written as a digit.
const DIGIT: [Step; 29] = [
    Step::Open,
    Step::Number(48),
    Step::Local(TypeName::Int, b"r"),
    Step::Open,
    Step::Name(b"a"),
    Step::Name(b"b"),
    Step::Operation(BinOp::Sub),
    Step::Set(b"a"),
    Step::Raise(b"r"),
    Step::Close,
    Step::Name(b"b"),
    Step::Name(b"a"),
    Step::Operation(BinOp::Le),
    Step::While,
    Step::Name(b"r"),
    Step::Number(39),
    Step::Operation(BinOp::Add),
    Step::Set(b"r"),
    Step::Number(57),
    Step::Name(b"r"),
    Step::Operation(BinOp::Lt),
    Step::If,
    Step::Name(b"r"),
    Step::Argument,
    Step::Call(b"putchar"),
    Step::Do,
    Step::Name(b"a"),
    Step::Return,
    Step::Close,
];

// The digit at each place is written where a has one there.
const PRINT_UNSIGNED: [Step; 17] = [
    Step::Open,
    Step::Name(b"a"),
    Step::Local(TypeName::Unsigned, b"r"),
    Step::Place(10000000),
    Step::Place(1000000),
    Step::Place(100000),
    Step::Place(10000),
    Step::Place(1000),
    Step::Place(100),
    Step::Place(10),
    Step::Name(b"r"),
    Step::Argument,
    Step::Unsigned(1),
    Step::Argument,
    Step::Call(b"one digit"),
    Step::Do,
    Step::Close,
];

const PRINT_HEX: [Step; 15] = [
    Step::Open,
    Step::Name(b"a"),
    Step::Local(TypeName::Unsigned, b"r"),
    Step::Place(1048576),
    Step::Place(65536),
    Step::Place(4096),
    Step::Place(256),
    Step::Place(16),
    Step::Name(b"r"),
    Step::Argument,
    Step::Unsigned(1),
    Step::Argument,
    Step::Call(b"one digit"),
    Step::Do,
    Step::Close,
];

const PRINT_SIGNED: [Step; 17] = [
    Step::Open,
    Step::Open,
    Step::Number(45),
    Step::Argument,
    Step::Call(b"putchar"),
    Step::Do,
    Step::Name(b"a"),
    Step::Minus,
    Step::Set(b"a"),
    Step::Close,
    Step::Negative(b"a"),
    Step::If,
    Step::Name(b"a"),
    Step::Argument,
    Step::Call(b"%u"),
    Step::Do,
    Step::Close,
];

// Each character costs a unit, once it was read and before it is written.
const PRINT_STRING: [Step; 17] = [
    Step::Open,
    Step::Open,
    Step::Call(b"unit of fuel"),
    Step::Do,
    Step::Name(b"p"),
    Step::Cast(TypeName::ToChar),
    Step::Deref,
    Step::Argument,
    Step::Call(b"piece of text"),
    Step::Do,
    Step::Raise(b"p"),
    Step::Close,
    Step::Name(b"p"),
    Step::Cast(TypeName::ToChar),
    Step::Deref,
    Step::While,
    Step::Close,
];

const PUT_STRING: [Step; 14] = [
    Step::Open,
    Step::Call(b"unit of fuel"),
    Step::Do,
    Step::Name(b"p"),
    Step::Argument,
    Step::Call(b"%s"),
    Step::Do,
    Step::Number(10),
    Step::Argument,
    Step::Call(b"piece of text"),
    Step::Do,
    Step::Number(0),
    Step::Return,
    Step::Close,
];

// The body of what is told of alone.
const NOTHING: [Step; 2] = [Step::Open, Step::Close];

const INTS: [(TypeName, &[u8]); 2] = [(TypeName::Int, b"a"), (TypeName::Int, b"b")];

const UNSIGNEDS: [(TypeName, &[u8]); 2] = [(TypeName::Unsigned, b"a"), (TypeName::Unsigned, b"b")];

const INT: [(TypeName, &[u8]); 1] = [(TypeName::Int, b"a")];

const UNSIGNED: [(TypeName, &[u8]); 1] = [(TypeName::Unsigned, b"a")];

const SHIFTED: [(TypeName, &[u8]); 2] = [(TypeName::Int, b"a"), (TypeName::Int, b"n")];

const SHIFTED_UNSIGNED: [(TypeName, &[u8]); 2] = [
    (TypeName::Unsigned, b"a"),
    (TypeName::Int, b"n"),
];

const MOVED: [(TypeName, &[u8]); 3] = [
    (TypeName::ToAny, b"p"),
    (TypeName::Int, b"n"),
    (TypeName::Int, b"k"),
];

const MOVED_UNSIGNED: [(TypeName, &[u8]); 3] = [
    (TypeName::ToAny, b"p"),
    (TypeName::Unsigned, b"n"),
    (TypeName::Int, b"k"),
];

const SWAPPED: [(TypeName, &[u8]); 3] = [
    (TypeName::Int, b"n"),
    (TypeName::ToAny, b"p"),
    (TypeName::Int, b"k"),
];

const SWAPPED_UNSIGNED: [(TypeName, &[u8]); 3] = [
    (TypeName::Unsigned, b"n"),
    (TypeName::ToAny, b"p"),
    (TypeName::Int, b"k"),
];

/// Those of a compound assignment.
pub const CHANGED: [(TypeName, &[u8]); 2] = [(TypeName::ToAny, b"p"), (TypeName::Int, b"b")];

const STEPPED: [(TypeName, &[u8]); 2] = [(TypeName::ToAny, b"p"), (TypeName::Int, b"k")];

const BETWEEN: [(TypeName, &[u8]); 3] = [
    (TypeName::ToAny, b"p"),
    (TypeName::ToAny, b"q"),
    (TypeName::Int, b"k"),
];

const NONE: [(TypeName, &[u8]); 0] = [];

const TEXT: [(TypeName, &[u8]); 1] = [(TypeName::ToChar, b"p")];

/// A helper function: its name, what it gives, its parameters, and the steps of its body.
#[derive(Clone, Copy)]
pub struct Helper<'a> {
    pub name: &'a [u8],
    pub gives: TypeName,
    pub parameters: &'a [(TypeName, &'a [u8])],
    pub body: &'a [Step<'a>],
}

/// Those that are told of alone, and never run.
pub const TOLD: [Helper; 3] = [
    Helper {
        name: b"unit of fuel",
        gives: TypeName::Void,
        parameters: &NONE,
        body: &NOTHING,
    },
    Helper {
        name: b"second fuel",
        gives: TypeName::Void,
        parameters: &NONE,
        body: &NOTHING,
    },
    Helper {
        name: b"piece of text",
        gives: TypeName::Void,
        parameters: &INT,
        body: &NOTHING,
    },
];

/// Those of operators.
pub const OPERATORS: [Helper; 12] = [
    Helper {
        name: b"*",
        gives: TypeName::Int,
        parameters: &INTS,
        body: &PRODUCT,
    },
    Helper {
        name: b"unsigned /",
        gives: TypeName::Unsigned,
        parameters: &UNSIGNEDS,
        body: &UNSIGNED_QUOTIENT,
    },
    Helper {
        name: b"int /",
        gives: TypeName::Int,
        parameters: &INTS,
        body: &INT_QUOTIENT,
    },
    Helper {
        name: b"unsigned %",
        gives: TypeName::Unsigned,
        parameters: &UNSIGNEDS,
        body: &UNSIGNED_REMAINDER,
    },
    Helper {
        name: b"int %",
        gives: TypeName::Int,
        parameters: &INTS,
        body: &INT_REMAINDER,
    },
    Helper {
        name: b"&",
        gives: TypeName::Int,
        parameters: &INTS,
        body: &BITS_AND,
    },
    Helper {
        name: b"|",
        gives: TypeName::Int,
        parameters: &INTS,
        body: &BITS_OR,
    },
    Helper {
        name: b"^",
        gives: TypeName::Int,
        parameters: &INTS,
        body: &BITS_XOR,
    },
    Helper {
        name: b"~",
        gives: TypeName::Int,
        parameters: &INT,
        body: &COMPLEMENT,
    },
    Helper {
        name: b"<<",
        gives: TypeName::Int,
        parameters: &SHIFTED,
        body: &SHIFT_LEFT,
    },
    Helper {
        name: b"unsigned >>",
        gives: TypeName::Unsigned,
        parameters: &SHIFTED_UNSIGNED,
        body: &UNSIGNED_SHIFT_RIGHT,
    },
    Helper {
        name: b"int >>",
        gives: TypeName::Int,
        parameters: &SHIFTED,
        body: &INT_SHIFT_RIGHT,
    },
];

/// The signs of operators, and those of the compound assignments by them.
pub const SIGNS: [(&[u8], &[u8]); 11] = [
    (b"*", b"*="),
    (b"unsigned /", b"unsigned /="),
    (b"int /", b"int /="),
    (b"unsigned %", b"unsigned %="),
    (b"int %", b"int %="),
    (b"&", b"&="),
    (b"|", b"|="),
    (b"^", b"^="),
    (b"<<", b"<<="),
    (b"unsigned >>", b"unsigned >>="),
    (b"int >>", b"int >>="),
];

/// Those of pointers to elements of k words.
pub const POINTERS: [Helper; 8] = [
    Helper {
        name: b"pointer + int",
        gives: TypeName::ToAny,
        parameters: &MOVED,
        body: &POINTER_SUM,
    },
    Helper {
        name: b"pointer + unsigned",
        gives: TypeName::ToAny,
        parameters: &MOVED_UNSIGNED,
        body: &POINTER_SUM,
    },
    Helper {
        name: b"int + pointer",
        gives: TypeName::ToAny,
        parameters: &SWAPPED,
        body: &SWAPPED_SUM,
    },
    Helper {
        name: b"unsigned + pointer",
        gives: TypeName::ToAny,
        parameters: &SWAPPED_UNSIGNED,
        body: &UNSIGNED_SWAPPED_SUM,
    },
    Helper {
        name: b"pointer += int",
        gives: TypeName::ToAny,
        parameters: &MOVED,
        body: &MOVING_SUM,
    },
    Helper {
        name: b"pointer += unsigned",
        gives: TypeName::ToAny,
        parameters: &MOVED_UNSIGNED,
        body: &UNSIGNED_MOVING_SUM,
    },
    Helper {
        name: b"pointer++",
        gives: TypeName::ToAny,
        parameters: &STEPPED,
        body: &POINTER_STEP,
    },
    Helper {
        name: b"pointer - pointer",
        gives: TypeName::Int,
        parameters: &BETWEEN,
        body: &POINTER_DIFFERENCE,
    },
];

/// Those that print.
pub const PRINTING: [Helper; 6] = [
    Helper {
        name: b"one digit",
        gives: TypeName::Unsigned,
        parameters: &UNSIGNEDS,
        body: &DIGIT,
    },
    Helper {
        name: b"%u",
        gives: TypeName::Void,
        parameters: &UNSIGNED,
        body: &PRINT_UNSIGNED,
    },
    Helper {
        name: b"%x",
        gives: TypeName::Void,
        parameters: &UNSIGNED,
        body: &PRINT_HEX,
    },
    Helper {
        name: b"%d",
        gives: TypeName::Void,
        parameters: &INT,
        body: &PRINT_SIGNED,
    },
    Helper {
        name: b"%s",
        gives: TypeName::Void,
        parameters: &TEXT,
        body: &PRINT_STRING,
    },
    Helper {
        name: b"string and line feed",
        gives: TypeName::Int,
        parameters: &TEXT,
        body: &PUT_STRING,
    },
];
