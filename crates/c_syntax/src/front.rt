//! What stands at the front of a text.

ghost use Rattle.std.specs.Prelude.{◌≡◌, ◌==◌, ℕ, ◌+◌, ◌<◌, ◌≤◌, ◌^◌, List, [], length, drop, IfOk, IfErr, IfSome, IsTrue, false, not, if◌then◌else◌};
ghost use Rattle.std.specs.List.{take_while, prefix_len};
ghost use Rattle.c_syntax.specs.Front.{word_kind, mark_at, mark_front, is_hex, radix_of, prefix_of, number_kind, number_behind, number_at, number_front, escaped_of, byte_of, octal_at, hex_at, escape_at, character_at, closing, comment_end, unescaped, string_front, constant_front, slash_front, front};
ghost use Rattle.c_syntax.specs.Bytes.{line_feed, apostrophe, is_suffix, begins, goes_on_name};

use crate::bytes::{
    digits_len, is_blank, is_digit, is_feed, is_suffix, name_len, number_up_to, starts_name,
};
use crate::text::Text;
use crate::token::{Kind, RawKind};
use crate::words::{key_of, mark_of};
use std::alloc::{AllocError, Global};

/// A part of a text.
#[derive(Drop)]
pub enum Lexeme {
    /// A space, a tab or a carriage return.
    Blank,
    LineFeed,
    /// A form feed or a vertical tab.
    Feed,
    Comment,
    Token(RawKind),
    /// A number, which no letter, digit or `_` may follow at once.
    Number(RawKind),
    /// The bytes before a byte that starts no token, or before an escape that is none.
    BadChar,
    /// A comment, string or character constant that isn't closed.
    Unclosed,
}

// A lexeme that is one token.
fn plain(kind: Kind, len: usize) -> (Lexeme, usize)
    ensures { result ≡ (Lexeme.Token (RawKind.Plain kind), len) }
{
    (Lexeme::Token(RawKind::Plain(kind)), len)
}

// A name or a keyword.
#[tactic(auto, unfolding(crate::specs::Front::word_kind))]
fn word_kind(alloc: Global, word: &[u8]) -> Result<Kind, AllocError>
    ensures { IfOk result (λ k. k ≡ word_kind word.now) }
{
    match key_of(word) {
        Some(key) => Ok(Kind::Key(key)),
        None => Ok(Kind::Name(Text::from_bytes(Vec::from_slice(alloc, word)?))),
    }
}

// The longest mark at the front, and its length.
#[tactic(auto, unfolding(crate::specs::Front::mark_at))]
fn mark_at(bytes: &[u8]) -> Option<(Kind, usize)>
    ensures value { result ≡ mark_at bytes.now }
    ensures within { IfSome result (λ x. x.1 ≤ length bytes.now) }
{
    let (three, _) = bytes.split_at(bytes.len().min(3));
    let (two, _) = bytes.split_at(bytes.len().min(2));
    let (one, _) = bytes.split_at(bytes.len().min(1));
    if let Some(mark) = mark_of(three) {
        return Some((Kind::Mark(mark), three.len()));
    }
    if let Some(mark) = mark_of(two) {
        return Some((Kind::Mark(mark), two.len()));
    }
    if let Some(mark) = mark_of(one) {
        return Some((Kind::Mark(mark), one.len()));
    }
    None
}

// A mark, or a byte that starts no token.
#[tactic(auto, unfolding(crate::specs::Front::mark_front))]
fn mark_front(bytes: &[u8]) -> (Lexeme, usize)
    requires { 0 < length bytes.now }
    ensures value { result ≡ mark_front bytes.now }
    ensures within { result.1 ≤ length bytes.now }
{
    match mark_at(bytes) {
        Some((kind, len)) => plain(kind, len),
        None => (Lexeme::BadChar, 0),
    }
}

// Whether a number is written in hex.
#[tactic(auto, unfolding(crate::specs::Front::is_hex))]
fn is_hex(bytes: &[u8]) -> bool
    ensures value { result ≡ is_hex bytes.now }
    ensures long { IsTrue result → 2 ≤ length bytes.now }
{
    match bytes {
        [b'0', b'x', digit, ..] => is_digit(*digit, 16),
        _ => false,
    }
}

// The radix of a number, and how many bytes stand before its digits.
#[tactic(auto, unfolding(crate::specs::Front::radix_of, crate::specs::Front::prefix_of))]
fn radix_of(bytes: &[u8]) -> (u32, usize)
    ensures value { result ≡ (radix_of bytes.now, prefix_of bytes.now) }
    ensures positive { 0 < result.0 }
    ensures small { result.0 ≤ 16 }
    ensures within { result.1 ≤ length bytes.now }
{
    if is_hex(bytes) {
        return (16, 2);
    }
    match bytes {
        [b'0', ..] => (8, 0),
        _ => (10, 0),
    }
}

// A number's token.
#[tactic(auto, unfolding(crate::specs::Front::number_kind))]
fn number_kind(value: u32, suffix: bool) -> RawKind
    ensures { result ≡ number_kind value suffix }
{
    if value < 16_777_216 {
        RawKind::Plain(Kind::Number {
            value,
            unsigned: suffix || 8_388_607 < value,
        })
    } else {
        RawKind::Wide
    }
}

// Whether the first byte makes the number before it unsigned.
fn begins_suffix(bytes: &[u8]) -> bool
    ensures value { result ≡ begins is_suffix bytes.now }
    ensures long { IsTrue result → 0 < length bytes.now }
{
    match bytes {
        [b, ..] => is_suffix(*b),
        [] => false,
    }
}

// A number whose digits stand in a radix behind so many bytes, with its suffix.
#[tactic(auto, unfolding(crate::specs::Front::number_behind))]
fn number_behind(radix: u32, prefix: usize, bytes: &[u8]) -> (RawKind, usize)
    requires positive { 0 < radix }
    requires small { radix ≤ 16 }
    requires within { prefix ≤ length bytes.now }
    ensures value { result ≡ number_behind radix prefix bytes.now }
    ensures within { result.1 ≤ length bytes.now }
{
    let (_, behind) = bytes.split_at(prefix);
    let len = digits_len(behind, radix);
    let (digits, rest) = behind.split_at(len);
    let value = number_up_to(digits, radix);
    if begins_suffix(rest) {
        return (number_kind(value, true), prefix + len + 1);
    }
    (number_kind(value, false), prefix + len)
}

// The number at the front, its suffix included.
#[tactic(auto, unfolding(crate::specs::Front::number_at))]
fn number_at(bytes: &[u8]) -> (RawKind, usize)
    ensures value { result ≡ number_at bytes.now }
    ensures within { result.1 ≤ length bytes.now }
{
    let (radix, prefix) = radix_of(bytes);
    number_behind(radix, prefix, bytes)
}

// What a letter or a mark stands for behind a backslash.
#[tactic(auto, unfolding(crate::specs::Front::escaped_of))]
fn escaped_of(b: u8) -> Option<u8>
    ensures { result ≡ escaped_of b }
{
    match b {
        b'a' => Some(7),
        b'b' => Some(8),
        b'f' => Some(12),
        b'n' => Some(10),
        b'r' => Some(13),
        b't' => Some(9),
        b'v' => Some(11),
        b'\\' | b'\'' | b'"' | b'?' => Some(b),
        _ => None,
    }
}

// The byte that digits write, if it is one, and how many bytes stand for it.
#[tactic(auto, unfolding(crate::specs::Front::byte_of))]
fn byte_of(radix: u32, digits: &[u8], len: usize) -> Option<(u8, usize)>
    requires positive { 0 < radix }
    requires small { radix ≤ 16 }
    ensures value { result ≡ byte_of radix digits.now len }
    ensures same { IfSome result (λ x. x.1 ≡ len) }
{
    let value = number_up_to(digits, radix);
    if value > 255 {
        return None;
    }
    Some((value as u8, len))
}

// The byte of one to three octal digits, as many as there are.
#[tactic(auto, unfolding(crate::specs::Front::octal_at))]
fn octal_at(bytes: &[u8]) -> Option<(u8, usize)>
    ensures value { result ≡ octal_at bytes.now }
    ensures within { IfSome result (λ x. x.1 ≤ length bytes.now) }
{
    let (front, _) = bytes.split_at(bytes.len().min(3));
    let (digits, _) = front.split_at(digits_len(front, 8));
    byte_of(8, digits, digits.len())
}

// The byte of all the hex digits that follow an `x`, and the length with it.
#[tactic(auto, unfolding(crate::specs::Front::hex_at))]
fn hex_at(bytes: &[u8]) -> Option<(u8, usize)>
    ensures value { result ≡ hex_at bytes.now }
    ensures within { IfSome result (λ x. x.1 ≤ length bytes.now + 1) }
{
    let (digits, _) = bytes.split_at(digits_len(bytes, 16));
    if digits.is_empty() {
        return None;
    }
    byte_of(16, digits, 1 + digits.len())
}

// The byte that an escape stands for, and its length, the backslash being passed.
#[tactic(auto, unfolding(crate::specs::Front::escape_at))]
fn escape_at(bytes: &[u8]) -> Option<(u8, usize)>
    ensures value { result ≡ escape_at bytes.now }
    ensures within { IfSome result (λ x. x.1 ≤ length bytes.now) }
{
    match bytes {
        [] => None,
        [b, ..] if is_digit(*b, 8) => octal_at(bytes),
        [b'x', rest @ ..] => hex_at(rest),
        [b, ..] => match escaped_of(*b) {
            Some(c) => Some((c, 1)),
            None => None,
        },
    }
}

// A byte of a string or a constant, and how many bytes stand for it.
#[tactic(auto, unfolding(crate::specs::Front::character_at))]
fn character_at(bytes: &[u8]) -> Option<(u8, usize)>
    ensures value { result ≡ character_at bytes.now }
    ensures within { IfSome result (λ x. x.1 ≤ length bytes.now) }
{
    match bytes {
        [] => None,
        [b'\\', rest @ ..] => match escape_at(rest) {
            Some((c, len)) => Some((c, 1 + len)),
            None => None,
        },
        [b, ..] => Some((*b, 1)),
    }
}

// How many bytes stand before the quote that closes a string on its line.
fn closing(bytes: &[u8]) -> Option<usize>
    ensures value { result ≡ closing false bytes.now }
    ensures within { IfSome result (λ n. n < length bytes.now) }
{
    let mut escaped = false;
    for (i, b) in bytes.iter().enumerate() {
        if *b == b'\n' {
            return None;
        }
        if !escaped && *b == b'"' {
            return Some(i);
        }
        escaped = !escaped && *b == b'\\';
    }
    None
}

// How many bytes go up to the end of a comment, its opening being passed.
fn comment_end(bytes: &[u8]) -> Option<usize>
    ensures value { result ≡ comment_end false bytes.now }
    ensures within { IfSome result (λ n. n ≤ length bytes.now) }
{
    let mut after_star = false;
    for (i, b) in bytes.iter().enumerate() {
        if after_star && *b == b'/' {
            return Some(i + 1);
        }
        after_star = *b == b'*';
    }
    None
}

// The bytes of a string that stands between its quotes, or the place of the first backslash that starts no escape.
fn unescaped(alloc: Global, bytes: &[u8]) -> Result<Result<Text, usize>, AllocError>
    ensures value { IfOk result (λ r. r ≡ unescaped (length bytes.now) 0 bytes.now) }
    ensures within { IfOk result (λ r. IfErr r (λ k. k ≤ length bytes.now)) }
{
    let mut text = Vec::new(alloc);
    let mut rest = bytes;
    // Each byte of the string takes a byte at least.
    for _ in 0..bytes.len() {
        if rest.is_empty() {
            return Ok(Ok(Text::from_bytes(text)));
        }
        match character_at(rest) {
            Some((c, len)) => {
                text.push(c)?;
                rest = rest.split_at(len).1;
            }
            None => return Ok(Err(bytes.len() - rest.len())),
        }
    }
    Ok(Ok(Text::from_bytes(text)))
}

// A string, its opening quote being passed.
#[tactic(auto, unfolding(crate::specs::Front::string_front))]
fn string_front(alloc: Global, bytes: &[u8]) -> Result<(Lexeme, usize), AllocError>
    requires { length bytes.now ≤ 2 ^ 29 }
    ensures value { IfOk result (λ x. x ≡ string_front bytes.now) }
    ensures within { IfOk result (λ x. x.1 ≤ length bytes.now + 1) }
{
    match closing(bytes) {
        Some(n) => {
            let (inside, _) = bytes.split_at(n);
            match unescaped(alloc, inside)? {
                Ok(text) => Ok(plain(Kind::Str(text), n + 2)),
                Err(k) => Ok((Lexeme::BadChar, 1 + k)),
            }
        }
        None => Ok((Lexeme::Unclosed, 1)),
    }
}

// A character constant, its opening apostrophe being passed.
#[tactic(auto, unfolding(crate::specs::Front::constant_front))]
fn constant_front(bytes: &[u8]) -> (Lexeme, usize)
    requires { length bytes.now ≤ 2 ^ 29 }
    ensures value { result ≡ constant_front bytes.now }
    ensures within { result.1 ≤ length bytes.now + 1 }
{
    match bytes {
        [] | [b'\'', ..] | [b'\n', ..] => (Lexeme::Unclosed, 1),
        _ => match character_at(bytes) {
            Some((c, len)) => constant_of(c, len, bytes.split_at(len).1),
            None => (Lexeme::BadChar, 1),
        },
    }
}

// A constant of a character, if its apostrophe follows.
fn constant_of(c: u8, len: usize, rest: &[u8]) -> (Lexeme, usize)
    requires { len < 2 ^ 30 }
    ensures { result ≡ (if begins (λ b. b == apostrophe) rest.now then (Lexeme.Token (RawKind.Plain (Kind.Number c false)), len + 2) else (Lexeme.Unclosed, 1)) }
{
    match rest {
        [b'\'', ..] => plain(
            Kind::Number {
                value: u32::from(c),
                unsigned: false,
            },
            len + 2,
        ),
        _ => (Lexeme::Unclosed, 1),
    }
}

// How many bytes of a line stand at the front.
fn line_len(bytes: &[u8]) -> usize
    ensures value { result ≡ prefix_len (λ b. not (b == line_feed)) bytes.now }
    ensures within { result ≤ length bytes.now }
{
    bytes.iter().take_while(|b| !(**b == b'\n')).count()
}

// A comment or an operator that begins with a slash.
#[tactic(auto, unfolding(crate::specs::Front::slash_front))]
fn slash_front(bytes: &[u8]) -> (Lexeme, usize)
    requires { 0 < length bytes.now }
    ensures value { result ≡ slash_front bytes.now }
    ensures within { result.1 ≤ length bytes.now }
{
    match bytes {
        [b'/', b'/', ..] => (Lexeme::Comment, line_len(bytes)),
        [b'/', b'*', rest @ ..] => match comment_end(rest) {
            Some(n) => (Lexeme::Comment, n + 2),
            None => (Lexeme::Unclosed, 1),
        },
        _ => mark_front(bytes),
    }
}

// A name or a keyword at the front.
fn word_front(alloc: Global, bytes: &[u8]) -> Result<(Lexeme, usize), AllocError>
    ensures value { IfOk result (λ x. x ≡ (Lexeme.Token (RawKind.Plain (word_kind (take_while goes_on_name bytes.now))), prefix_len goes_on_name bytes.now)) }
    ensures within { IfOk result (λ x. x.1 ≤ length bytes.now) }
{
    let len = name_len(bytes);
    let kind = word_kind(alloc, bytes.split_at(len).0)?;
    Ok(plain(kind, len))
}

/// What stands at the front of a text, and its length: a blank, a comment, or the longest token.
#[tactic(auto, unfolding(crate::specs::Front::front))]
pub fn front(alloc: Global, bytes: &[u8]) -> Result<(Lexeme, usize), AllocError>
    requires { length bytes.now ≤ 2 ^ 29 }
    ensures value { IfOk result (λ x. x ≡ front bytes.now) }
    ensures within { IfOk result (λ x. x.1 ≤ length bytes.now) }
{
    let [b, rest @ ..] = bytes else {
        return Ok(plain(Kind::End, 0));
    };
    if is_blank(*b) {
        return Ok((Lexeme::Blank, 1));
    }
    if *b == b'\n' {
        return Ok((Lexeme::LineFeed, 1));
    }
    if is_feed(*b) {
        return Ok((Lexeme::Feed, 1));
    }
    if starts_name(*b) {
        return word_front(alloc, bytes);
    }
    if b.is_ascii_digit() {
        let (kind, len) = number_at(bytes);
        return Ok((Lexeme::Number(kind), len));
    }
    match *b {
        b'"' => string_front(alloc, rest),
        b'\'' => Ok(constant_front(rest)),
        b'#' => Ok((Lexeme::Token(RawKind::Hash), 1)),
        b'/' => Ok(slash_front(bytes)),
        _ => Ok(mark_front(bytes)),
    }
}
