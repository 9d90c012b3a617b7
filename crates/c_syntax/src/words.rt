//! The spelling of keywords and marks.

ghost use Rattle.std.specs.Prelude.{◌≡◌, ◌∷◌, [], false, List, length};
ghost use Rattle.std.specs.Str.{bytes_eq};
ghost use Rattle.std.specs.Map.{lookup};
ghost use Rattle.c_syntax.specs.Words.{is_usual, key_of, mark_of};

use crate::token::{Key, Mark};

const OF_TWO: [(&[u8], Key); 2] = [(b"do", Key::Do), (b"if", Key::If)];

const OF_THREE: [(&[u8], Key); 2] = [(b"for", Key::For), (b"int", Key::Int)];

const OF_FOUR: [(&[u8], Key); 8] = [
    (b"auto", Key::Auto),
    (b"case", Key::Case),
    (b"char", Key::Char),
    (b"else", Key::Else),
    (b"enum", Key::Enum),
    (b"goto", Key::Goto),
    (b"long", Key::Long),
    (b"void", Key::Void),
];

const OF_FIVE: [(&[u8], Key); 7] = [
    (b"break", Key::Break),
    (b"const", Key::Const),
    (b"float", Key::Float),
    (b"short", Key::Short),
    (b"union", Key::Union),
    (b"while", Key::While),
    (b"_Bool", Key::Bool),
];

const OF_SIX: [(&[u8], Key); 9] = [
    (b"double", Key::Double),
    (b"extern", Key::Extern),
    (b"inline", Key::Inline),
    (b"return", Key::Return),
    (b"signed", Key::Signed),
    (b"sizeof", Key::Sizeof),
    (b"static", Key::Static),
    (b"struct", Key::Struct),
    (b"switch", Key::Switch),
];

const OF_SEVEN: [(&[u8], Key); 3] = [
    (b"default", Key::Default),
    (b"typedef", Key::Typedef),
    (b"_Atomic", Key::Atomic),
];

const OF_EIGHT: [(&[u8], Key); 9] = [
    (b"continue", Key::Continue),
    (b"register", Key::Register),
    (b"restrict", Key::Restrict),
    (b"unsigned", Key::Unsigned),
    (b"volatile", Key::Volatile),
    (b"_Alignas", Key::Alignas),
    (b"_Alignof", Key::Alignof),
    (b"_Complex", Key::Complex),
    (b"_Generic", Key::Generic),
];

const OF_MORE: [(&[u8], Key); 4] = [
    (b"_Imaginary", Key::Imaginary),
    (b"_Noreturn", Key::Noreturn),
    (b"_Static_assert", Key::StaticAssert),
    (b"_Thread_local", Key::ThreadLocal),
];

/// What a table has at a word.
pub fn meaning<T: Copy>(table: &[(&[u8], T)], word: &[u8]) -> Option<T>
    ensures { result ≡ lookup (λ entry. bytes_eq word.now entry.now) table.now }
{
    for (spelling, meaning) in table {
        if word == *spelling {
            return Some(*meaning);
        }
    }
    None
}

// The keyword that two bytes are.
fn key_of_two(word: &[u8]) -> Option<Key>
    requires { length word.now ≡ 2 }
    ensures { result ≡ key_of word.now }
{
    meaning(&OF_TWO, word)
}

// The keyword that three bytes are.
fn key_of_three(word: &[u8]) -> Option<Key>
    requires { length word.now ≡ 3 }
    ensures { result ≡ key_of word.now }
{
    meaning(&OF_THREE, word)
}

// The keyword that four bytes are.
fn key_of_four(word: &[u8]) -> Option<Key>
    requires { length word.now ≡ 4 }
    ensures { result ≡ key_of word.now }
{
    meaning(&OF_FOUR, word)
}

// The keyword that five bytes are.
fn key_of_five(word: &[u8]) -> Option<Key>
    requires { length word.now ≡ 5 }
    ensures { result ≡ key_of word.now }
{
    meaning(&OF_FIVE, word)
}

// The keyword that six bytes are.
fn key_of_six(word: &[u8]) -> Option<Key>
    requires { length word.now ≡ 6 }
    ensures { result ≡ key_of word.now }
{
    meaning(&OF_SIX, word)
}

// The keyword that seven bytes are.
fn key_of_seven(word: &[u8]) -> Option<Key>
    requires { length word.now ≡ 7 }
    ensures { result ≡ key_of word.now }
{
    meaning(&OF_SEVEN, word)
}

// The keyword that eight bytes are.
fn key_of_eight(word: &[u8]) -> Option<Key>
    requires { length word.now ≡ 8 }
    ensures { result ≡ key_of word.now }
{
    meaning(&OF_EIGHT, word)
}

// The keyword that fewer than two bytes or more than eight are.
fn key_of_more(word: &[u8]) -> Option<Key>
    requires { is_usual (length word.now) ≡ false }
    ensures { result ≡ key_of word.now }
{
    meaning(&OF_MORE, word)
}

// Whether a word has two to eight bytes, as most keywords.
fn is_usual(len: usize) -> bool
    ensures { result ≡ is_usual len }
{
    1 < len && len < 9
}

/// The keyword that a word is, if it is one.
pub fn key_of(word: &[u8]) -> Option<Key>
    ensures { result ≡ key_of word.now }
{
    if !is_usual(word.len()) {
        return key_of_more(word);
    }
    match word.len() {
        2 => key_of_two(word),
        3 => key_of_three(word),
        4 => key_of_four(word),
        5 => key_of_five(word),
        6 => key_of_six(word),
        7 => key_of_seven(word),
        _ => key_of_eight(word),
    }
}

// The mark that a byte spells.
#[tactic(auto, unfolding(crate::specs::Words::mark_of))]
fn mark_of_one(a: u8) -> Option<Mark>
    ensures { result ≡ mark_of (a ∷ []) }
{
    match a {
        b'(' => Some(Mark::LParen),
        b')' => Some(Mark::RParen),
        b'[' => Some(Mark::LBracket),
        b']' => Some(Mark::RBracket),
        b'{' => Some(Mark::LBrace),
        b'}' => Some(Mark::RBrace),
        b',' => Some(Mark::Comma),
        b';' => Some(Mark::Semi),
        b':' => Some(Mark::Colon),
        b'?' => Some(Mark::Question),
        b'.' => Some(Mark::Dot),
        b'=' => Some(Mark::Assign),
        b'|' => Some(Mark::Bar),
        b'^' => Some(Mark::Caret),
        b'&' => Some(Mark::Amp),
        b'<' => Some(Mark::Less),
        b'>' => Some(Mark::Greater),
        b'+' => Some(Mark::Plus),
        b'-' => Some(Mark::Minus),
        b'*' => Some(Mark::Star),
        b'/' => Some(Mark::Slash),
        b'%' => Some(Mark::Percent),
        b'~' => Some(Mark::Tilde),
        b'!' => Some(Mark::Bang),
        _ => None,
    }
}

// The mark that a byte spells with a `=` behind it.
#[tactic(auto, unfolding(crate::specs::Words::mark_of))]
fn mark_with_equals(a: u8) -> Option<Mark>
    ensures { result ≡ mark_of (a ∷ 61 ∷ []) }
{
    match a {
        b'+' => Some(Mark::PlusAssign),
        b'-' => Some(Mark::MinusAssign),
        b'*' => Some(Mark::StarAssign),
        b'/' => Some(Mark::SlashAssign),
        b'%' => Some(Mark::PercentAssign),
        b'&' => Some(Mark::AmpAssign),
        b'|' => Some(Mark::BarAssign),
        b'^' => Some(Mark::CaretAssign),
        b'=' => Some(Mark::EqEq),
        b'!' => Some(Mark::NotEq),
        b'<' => Some(Mark::LessEq),
        b'>' => Some(Mark::GreaterEq),
        _ => None,
    }
}

// The mark that a byte spells twice.
#[tactic(auto, unfolding(crate::specs::Words::mark_of))]
fn mark_twice(a: u8) -> Option<Mark>
    ensures { result ≡ mark_of (a ∷ a ∷ []) }
{
    match a {
        b'|' => Some(Mark::OrOr),
        b'&' => Some(Mark::AndAnd),
        b'=' => Some(Mark::EqEq),
        b'<' => Some(Mark::Shl),
        b'>' => Some(Mark::Shr),
        b'+' => Some(Mark::PlusPlus),
        b'-' => Some(Mark::MinusMinus),
        _ => None,
    }
}

// The mark that two bytes spell.
#[tactic(auto, unfolding(crate::specs::Words::mark_of))]
fn mark_of_two(a: u8, b: u8) -> Option<Mark>
    ensures { result ≡ mark_of (a ∷ b ∷ []) }
{
    if b == b'=' {
        return mark_with_equals(a);
    }
    if a == b {
        return mark_twice(a);
    }
    if a == b'-' && b == b'>' {
        return Some(Mark::Arrow);
    }
    None
}

// The mark that three bytes spell.
#[tactic(auto, unfolding(crate::specs::Words::mark_of))]
fn mark_of_three(a: u8, b: u8, c: u8) -> Option<Mark>
    ensures { result ≡ mark_of (a ∷ b ∷ c ∷ []) }
{
    if !(a == b && c == b'=') {
        return None;
    }
    match a {
        b'<' => Some(Mark::ShlAssign),
        b'>' => Some(Mark::ShrAssign),
        _ => None,
    }
}

/// The mark that bytes spell, if they do.
#[tactic(auto, unfolding(crate::specs::Words::mark_of))]
pub fn mark_of(bytes: &[u8]) -> Option<Mark>
    ensures { result ≡ mark_of bytes.now }
{
    match bytes {
        [a] => mark_of_one(*a),
        [a, b] => mark_of_two(*a, *b),
        [a, b, c] => mark_of_three(*a, *b, *c),
        _ => None,
    }
}
