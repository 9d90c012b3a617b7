//! Which tokens are the same, and their copies.

ghost use Rattle.std.specs.Prelude.{◌≡◌, IfOk};
ghost use Rattle.c_prep.specs.Macros.{kinds, agrees, same, same_kind, same_kinds};

use c_syntax::{Key, Kind, Mark, Raw, RawKind};
use std::alloc::{AllocError, Global};

/// Whether two flags are the same.
pub fn agrees(a: bool, b: bool) -> bool
    ensures { result ≡ agrees a b }
{
    if a { b } else { !b }
}

fn is_name(name: &[u8], kind: &Kind) -> bool
    ensures { result ≡ same (Kind.Name name.now) kind.now }
{
    match kind {
        Kind::Name(other) => name == other.as_bytes(),
        _ => false,
    }
}

fn is_number(number: u32, flag: bool, kind: &Kind) -> bool
    ensures { result ≡ same (Kind.Number number flag) kind.now }
{
    match kind {
        Kind::Number { value, unsigned } => number == *value && agrees(flag, *unsigned),
        _ => false,
    }
}

fn is_string(text: &[u8], kind: &Kind) -> bool
    ensures { result ≡ same (Kind.Str text.now) kind.now }
{
    match kind {
        Kind::Str(other) => text == other.as_bytes(),
        _ => false,
    }
}

fn is_null(kind: &Kind) -> bool
    ensures { result ≡ same Kind.Null kind.now }
{
    match kind {
        Kind::Null => true,
        _ => false,
    }
}

fn is_key(key: Key, kind: &Kind) -> bool
    ensures { result ≡ same (Kind.Key key) kind.now }
{
    match kind {
        Kind::Key(other) => key == *other,
        _ => false,
    }
}

fn is_mark(mark: Mark, kind: &Kind) -> bool
    ensures { result ≡ same (Kind.Mark mark) kind.now }
{
    match kind {
        Kind::Mark(other) => mark == *other,
        _ => false,
    }
}

fn is_end(kind: &Kind) -> bool
    ensures { result ≡ same Kind.End kind.now }
{
    match kind {
        Kind::End => true,
        _ => false,
    }
}

// Whether two tokens of the grammar are the same.
fn same(a: &Kind, b: &Kind) -> bool
    ensures { result ≡ same a.now b.now }
{
    match a {
        Kind::Name(name) => is_name(name.as_bytes(), b),
        Kind::Number { value, unsigned } => is_number(*value, *unsigned, b),
        Kind::Str(text) => is_string(text.as_bytes(), b),
        Kind::Null => is_null(b),
        Kind::Key(key) => is_key(*key, b),
        Kind::Mark(mark) => is_mark(*mark, b),
        Kind::End => is_end(b),
    }
}

fn is_hash(kind: &RawKind) -> bool
    ensures { result ≡ same_kind RawKind.Hash kind.now }
{
    match kind {
        RawKind::Hash => true,
        _ => false,
    }
}

// Whether a token is the same as one of the grammar.
fn is_plain(a: &Kind, kind: &RawKind) -> bool
    ensures { result ≡ same_kind (RawKind.Plain a.now) kind.now }
{
    match kind {
        RawKind::Plain(b) => same(a, b),
        _ => false,
    }
}

// Whether two tokens are the same.
fn same_kind(a: &RawKind, b: &RawKind) -> bool
    ensures { result ≡ same_kind a.now b.now }
{
    match a {
        RawKind::Plain(kind) => is_plain(kind, b),
        RawKind::Hash => is_hash(b),
        RawKind::Wide => false,
    }
}

/// Whether two lists of tokens are the same.
pub fn same_kinds(a: &[Raw], b: &[Raw]) -> bool
    ensures { result ≡ same_kinds (kinds a.now) (kinds b.now) }
{
    let mut left = a;
    let mut right = b;
    while let [x, xs @ ..] = left {
        let [y, ys @ ..] = right else {
            return false;
        };
        if !same_kind(&x.kind, &y.kind) {
            return false;
        }
        left = xs;
        right = ys;
    }
    right.is_empty()
}

fn copied_kind(alloc: Global, kind: &Kind) -> Result<Kind, AllocError>
    ensures { IfOk result (λ k. k ≡ kind.now) }
{
    match kind {
        Kind::Name(name) => Ok(Kind::Name(name.copied(alloc)?)),
        Kind::Number { value, unsigned } => Ok(Kind::Number {
            value: *value,
            unsigned: *unsigned,
        }),
        Kind::Str(text) => Ok(Kind::Str(text.copied(alloc)?)),
        Kind::Null => Ok(Kind::Null),
        Kind::Key(key) => Ok(Kind::Key(*key)),
        Kind::Mark(mark) => Ok(Kind::Mark(*mark)),
        Kind::End => Ok(Kind::End),
    }
}

/// A copy of a token.
pub fn copied(alloc: Global, kind: &RawKind) -> Result<RawKind, AllocError>
    ensures { IfOk result (λ k. k ≡ kind.now) }
{
    match kind {
        RawKind::Plain(kind) => Ok(RawKind::Plain(copied_kind(alloc, kind)?)),
        RawKind::Hash => Ok(RawKind::Hash),
        RawKind::Wide => Ok(RawKind::Wide),
    }
}
