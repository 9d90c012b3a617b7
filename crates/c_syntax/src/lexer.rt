//! The tokens of a text.

ghost use Rattle.std.specs.Prelude.{◌≡◌, ◌≤◌, ◌^◌, ◌++◌, ◌&&◌, not, codes, length, OnOk, fold};
ghost use Rattle.c_syntax.specs.Scan.{Gives};
ghost use Rattle.c_syntax.specs.Header.{header_tokens};
ghost use Rattle.c_syntax.specs.Lex.{named_constant, joined, put, on_line, begins_line, is_name, mark_in, is_less, is_dot, is_greater, header_in, passes, begins_include, ends_include, header_at, directive, Reads, step, lex_tokens};

use crate::header::{Header, Included, header_named, header_tokens};
use crate::scan::{Found, Gap, Piece, scan};
use crate::text::Text;
use crate::token::{Kind, LexFault, Mark, RawKind, Token};
use std::alloc::{AllocError, Global};
use std::collections::VecDeque;

// A name's meaning, if it is `NULL` or `EOF`.
fn named_constant(kind: Kind) -> Kind
    ensures { result ≡ named_constant kind }
{
    match kind {
        Kind::Name(word) => constant_of(word),
        other => other,
    }
}

// `NULL`, `EOF` or another name.
fn constant_of(word: Text) -> Kind
    ensures { result ≡ named_constant (Kind.Name word) }
{
    match word.as_bytes() {
        b"NULL" => Kind::Null,
        b"EOF" => Kind::Number {
            value: 16_777_215,
            unsigned: false,
        },
        _ => Kind::Name(word),
    }
}

// Adds a token behind a string; two strings are one.
fn push_behind_string(
    tokens: &mut Vec<Token>,
    mut before: Text,
    pos: u32,
    token: Token,
) -> Result<(), AllocError>
    ensures { OnOk result (tokens.new.items ≡ tokens.old.items ++ joined (record { kind = Kind.Str before; pos = pos }) token) }
{
    let Token { kind, pos: behind } = token;
    match kind {
        Kind::Str(text) => {
            before.append(&text)?;
            let kind = Kind::Str(before);
            tokens.push(Token { kind, pos })?;
            Ok(())
        }
        kind => {
            let string = Kind::Str(before);
            tokens.push(Token { kind: string, pos })?;
            tokens.push(Token { kind, pos: behind })?;
            Ok(())
        }
    }
}

// Adds a token behind the last one; two strings are one.
fn push_joined(tokens: &mut Vec<Token>, last: Token, token: Token) -> Result<(), AllocError>
    ensures { OnOk result (tokens.new.items ≡ tokens.old.items ++ joined last token) }
{
    let Token { kind, pos } = last;
    match kind {
        Kind::Str(before) => push_behind_string(tokens, before, pos, token),
        kind => {
            tokens.push(Token { kind, pos })?;
            tokens.push(token)?;
            Ok(())
        }
    }
}

/// Adds a token behind others: `NULL` and `EOF` are replaced, and a string that follows a string makes it longer.
#[tactic(auto, using(crate::proofs::Lexing::added_last))]
pub fn put(tokens: &mut Vec<Token>, token: Token) -> Result<(), AllocError>
    ensures { OnOk result (tokens.new.items ≡ put tokens.old.items token) }
{
    let pos = token.pos;
    let kind = named_constant(token.kind);
    match tokens.pop() {
        None => {
            tokens.push(Token { kind, pos })?;
            Ok(())
        }
        Some(last) => push_joined(tokens, last, Token { kind, pos }),
    }
}

// Whether a piece is this name.
fn is_name(word: &[u8], found: &Found) -> bool
    ensures { result ≡ is_name word.now found.now }
{
    match found {
        Found::Token(RawKind::Plain(Kind::Name(name))) => name.as_bytes() == word,
        _ => false,
    }
}

// The mark that a piece is, if it is one.
fn mark_in(found: &Found) -> Option<Mark>
    ensures { result ≡ mark_in found.now }
{
    match found {
        Found::Token(RawKind::Plain(Kind::Mark(mark))) => Some(*mark),
        _ => None,
    }
}

fn is_less(mark: Option<Mark>) -> bool
    ensures { result ≡ is_less mark }
{
    match mark {
        Some(Mark::Less) => true,
        _ => false,
    }
}

fn is_dot(mark: Option<Mark>) -> bool
    ensures { result ≡ is_dot mark }
{
    match mark {
        Some(Mark::Dot) => true,
        _ => false,
    }
}

fn is_greater(mark: Option<Mark>) -> bool
    ensures { result ≡ is_greater mark }
{
    match mark {
        Some(Mark::Greater) => true,
        _ => false,
    }
}

// The header that a name names.
fn header_in(found: &Found) -> Option<Header>
    ensures { result ≡ header_in found.now }
{
    match found {
        Found::Token(RawKind::Plain(Kind::Name(name))) => header_named(name.as_bytes()),
        _ => None,
    }
}

// Whether a piece stands on the line of the one before, behind blanks and comments.
fn on_line(gap: Gap) -> bool
    ensures { result ≡ on_line gap }
{
    !gap.first && !gap.feed
}

// Whether a piece is the first of its line, with nothing but blanks and comments before the line feed.
fn begins_line(gap: Gap) -> bool
    ensures { result ≡ begins_line gap }
{
    gap.first && !gap.feed
}

// Whether `include`, `<` and what follows that at once stand behind a `#`.
#[tactic(auto, unfolding(crate::specs::Lex::begins_include))]
fn begins_include(pieces: &VecDeque<Piece>) -> bool
    ensures { result ≡ begins_include pieces.now.items }
{
    pieces
        .get(0)
        .is_some_and(|p| is_name(b"include", &p.found) && on_line(p.gap))
        && pieces
            .get(1)
            .is_some_and(|p| is_less(mark_in(&p.found)) && on_line(p.gap))
        && pieces.get(2).is_some_and(|p| p.gap.close)
}

// Whether the piece at an index is a dot right behind a token.
fn has_dot(pieces: &VecDeque<Piece>, index: usize) -> bool
    ensures { result ≡ passes (λ p. is_dot (mark_in p.found) && p.gap.close) index pieces.now.items }
{
    pieces
        .get(index)
        .is_some_and(|p| is_dot(mark_in(&p.found)) && p.gap.close)
}

// Whether it is the name `h` right behind a token.
fn has_h(pieces: &VecDeque<Piece>, index: usize) -> bool
    ensures { result ≡ passes (λ p. is_name (codes "h") p.found && p.gap.close) index pieces.now.items }
{
    pieces
        .get(index)
        .is_some_and(|p| is_name(b"h", &p.found) && p.gap.close)
}

// Whether it is a `>` right behind a token.
fn has_greater(pieces: &VecDeque<Piece>, index: usize) -> bool
    ensures { result ≡ passes (λ p. is_greater (mark_in p.found) && p.gap.close) index pieces.now.items }
{
    pieces
        .get(index)
        .is_some_and(|p| is_greater(mark_in(&p.found)) && p.gap.close)
}

// Whether it begins a line.
fn has_line(pieces: &VecDeque<Piece>, index: usize) -> bool
    ensures { result ≡ passes (λ p. begins_line p.gap) index pieces.now.items }
{
    pieces.get(index).is_some_and(|p| begins_line(p.gap))
}

// Whether a header's name is followed by `.h>` and the line's end.
#[tactic(auto, unfolding(crate::specs::Lex::ends_include))]
fn ends_include(pieces: &VecDeque<Piece>) -> bool
    ensures { result ≡ ends_include pieces.now.items }
{
    has_dot(pieces, 3) && has_h(pieces, 4) && has_greater(pieces, 5) && has_line(pieces, 6)
}

// The header that a line includes, by what stands behind its `#`.
#[tactic(auto, unfolding(crate::specs::Lex::header_at))]
fn header_at(pieces: &VecDeque<Piece>) -> Option<Header>
    ensures { result ≡ header_at pieces.now.items }
{
    if !(begins_include(pieces) && ends_include(pieces)) {
        return None;
    }
    match pieces.get(2) {
        Some(piece) => header_in(&piece.found),
        None => None,
    }
}

// Adds a header's tokens.
fn put_header(
    alloc: Global,
    header: Header,
    pos: u32,
    tokens: &mut Vec<Token>,
) -> Result<(), AllocError>
    ensures { OnOk result (tokens.new.items ≡ fold put tokens.old.items (header_tokens header pos)) }
{
    let mut more = header_tokens(alloc, header, pos)?;
    while let Some(token) = more.pop_front() {
        put(tokens, token)?;
    }
    Ok(())
}

// Reads the line of a `#`, and adds its header's tokens where it is the first line that includes it. Answers the headers that were
// included so far, and that the rest of the line stands for nothing.
fn directive(
    alloc: Global,
    included: Included,
    pos: u32,
    gap: Gap,
    rest: &VecDeque<Piece>,
    tokens: &mut Vec<Token>,
) -> Result<(Included, bool), LexFault>
    ensures { Reads result (directive included gap.first (header_at rest.now.items) pos) tokens.old.items tokens.new.items }
{
    if !gap.first {
        return Err(LexFault::BadChar(pos));
    }
    let Some(header) = header_at(rest) else {
        return Err(LexFault::BadChar(pos));
    };
    if !included.has(header) {
        put_header(alloc, header, pos, tokens)?;
    }
    Ok((included.with_header(header), true))
}

// Whether a piece stands on the line of a directive before it.
fn is_read(inside: bool, gap: Gap) -> bool
    ensures { result ≡ (inside && not gap.first) }
{
    inside && !gap.first
}

// Reads a piece that others follow. Answers the headers that were included so far, and whether the rest of its line stands for nothing.
fn read_piece(
    alloc: Global,
    included: Included,
    piece: Piece,
    rest: &VecDeque<Piece>,
    tokens: &mut Vec<Token>,
) -> Result<(Included, bool), LexFault>
    ensures { Reads result (step included piece.found piece.pos piece.gap rest.now.items) tokens.old.items tokens.new.items }
{
    let pos = piece.pos;
    match piece.found {
        Found::Token(RawKind::Plain(kind)) => {
            put(tokens, Token { kind, pos })?;
            Ok((included, false))
        }
        Found::Token(RawKind::Wide) => Err(LexFault::NumberRange(pos)),
        Found::Token(RawKind::Hash) => directive(alloc, included, pos, piece.gap, rest, tokens),
        Found::BadChar => Err(LexFault::BadChar(pos)),
        Found::Unclosed => Err(LexFault::Unclosed(pos)),
    }
}

/// The tokens of a text, the end last.
///
/// A line `#include <stdio.h>`, `<stdlib.h>` or `<string.h>` stands for the header's tokens, at the place of the `#`, where it is the first
/// of its header. The lowest refusal comes, at its place; the text has at most 2^29 bytes.
#[tactic(auto, unfolding(crate::specs::Lex::lex_tokens))]
pub fn lex(alloc: Global, text: &[u8]) -> Result<Vec<Token>, LexFault>
    requires { length text.now ≤ 2 ^ 29 }
    ensures { Gives (λ v. v.items) result (lex_tokens text.now) }
{
    let mut pieces = scan(alloc, text)?;
    let mut tokens = Vec::new(alloc);
    let mut included = Included::none();
    let mut inside = false;
    while let Some(piece) = pieces.pop_front() {
        if is_read(inside, piece.gap) {
            continue;
        }
        match read_piece(alloc, included, piece, &pieces, &mut tokens) {
            Ok((headers, on)) => {
                included = headers;
                inside = on;
            }
            Err(fault) => return Err(fault),
        }
    }
    Ok(tokens)
}
