//! A text cut into its tokens.

ghost use Rattle.std.specs.Prelude.{◌≡◌, ℕ, ◌≤◌, ◌^◌, ◌++◌, List, length, IfOk};
ghost use Rattle.c_syntax.specs.Scan.{end_piece, junk_behind, pieces_of, pieces};

use crate::bytes::goes_on_name;
use crate::front::{Lexeme, front};
use crate::token::{Kind, RawKind};
use std::alloc::{AllocError, Global};
use std::collections::VecDeque;

/// What stands between a token and the one before it.
#[derive(Clone, Copy)]
pub struct Gap {
    /// A line feed, or nothing of the text stands before.
    pub first: bool,
    /// Nothing.
    pub close: bool,
    /// A form feed or a vertical tab, on the line of the token before.
    pub feed: bool,
}

/// A token, or what is refused.
#[derive(Drop)]
pub enum Found {
    Token(RawKind),
    BadChar,
    Unclosed,
}

/// A token or what is refused, its place, and what stands before it.
#[derive(Drop)]
pub struct Piece {
    pub found: Found,
    pub pos: u32,
    pub gap: Gap,
}

impl Gap {
    ghost use Rattle.std.specs.Prelude.{◌≡◌};
    ghost use Rattle.c_syntax.specs.Scan.{at_start, behind_token, and_blank, and_line, and_feed};

    /// Before a text's first token.
    pub fn at_start() -> Gap
        ensures { result ≡ at_start }
    {
        Gap {
            first: true,
            close: false,
            feed: false,
        }
    }

    /// Right behind a token.
    pub fn behind_token() -> Gap
        ensures { result ≡ behind_token }
    {
        Gap {
            first: false,
            close: true,
            feed: false,
        }
    }

    /// And then a blank or a comment.
    pub fn and_blank(self) -> Gap
        ensures { result ≡ and_blank self }
    {
        Gap {
            first: self.first,
            close: false,
            feed: self.feed,
        }
    }

    /// And then a line feed.
    pub fn and_line(self) -> Gap
        ensures { result ≡ and_line self }
    {
        Gap {
            first: true,
            close: false,
            feed: self.feed,
        }
    }

    /// And then a form feed or a vertical tab.
    pub fn and_feed(self) -> Gap
        ensures { result ≡ and_feed self }
    {
        Gap {
            first: self.first,
            close: false,
            feed: self.feed || !self.first,
        }
    }
}

// The text's end, which is the first of its line.
fn end_piece(pos: u32, gap: Gap) -> Piece
    ensures { result ≡ end_piece pos gap }
{
    let found = Found::Token(RawKind::Plain(Kind::End));
    let gap = Gap {
        first: true,
        close: gap.close,
        feed: gap.feed,
    };
    Piece { found, pos, gap }
}

// What a number gives beside its token: a letter, a digit or `_` may not follow it at once.
fn behind_number(
    pieces: &mut VecDeque<Piece>,
    pos: u32,
    rest: &[u8],
) -> Result<Option<Gap>, AllocError>
    ensures { IfOk result (λ g. (pieces.new.items ≡ pieces.old.items ++ (junk_behind pos rest.now).0) × (g ≡ (junk_behind pos rest.now).1)) }
{
    match rest {
        [b, ..] if goes_on_name(*b) => {
            pieces.push_back(Piece {
                found: Found::BadChar,
                pos,
                gap: Gap::behind_token(),
            })?;
            Ok(None)
        }
        _ => Ok(Some(Gap::behind_token())),
    }
}

// Adds what one lexeme gives, and answers what then stands before what follows it, if anything may follow.
fn add_pieces(
    pieces: &mut VecDeque<Piece>,
    lexeme: Lexeme,
    pos: u32,
    behind: u32,
    gap: Gap,
    rest: &[u8],
) -> Result<Option<Gap>, AllocError>
    ensures { IfOk result (λ g. (pieces.new.items ≡ pieces.old.items ++ (pieces_of lexeme pos behind gap rest.now).0) × (g ≡ (pieces_of lexeme pos behind gap rest.now).1)) }
{
    let (found, pos) = match lexeme {
        Lexeme::Blank | Lexeme::Comment => return Ok(Some(gap.and_blank())),
        Lexeme::LineFeed => return Ok(Some(gap.and_line())),
        Lexeme::Feed => return Ok(Some(gap.and_feed())),
        Lexeme::Token(kind) => {
            let found = Found::Token(kind);
            pieces.push_back(Piece { found, pos, gap })?;
            return Ok(Some(Gap::behind_token()));
        }
        Lexeme::Number(kind) => {
            let found = Found::Token(kind);
            pieces.push_back(Piece { found, pos, gap })?;
            return behind_number(pieces, behind, rest);
        }
        Lexeme::BadChar => (Found::BadChar, behind),
        Lexeme::Unclosed => (Found::Unclosed, pos),
    };
    pieces.push_back(Piece { found, pos, gap })?;
    Ok(None)
}

/// A text cut into its tokens, up to its end or to what is refused first.
pub fn scan(alloc: Global, text: &[u8]) -> Result<VecDeque<Piece>, AllocError>
    requires { length text.now ≤ 2 ^ 29 }
    ensures { IfOk result (λ v. v.items ≡ pieces text.now) }
{
    let mut found = VecDeque::new(alloc);
    let mut rest = text;
    let mut pos = 0;
    let mut gap = Gap::at_start();
    // Each part takes a byte at least.
    for _ in 0..text.len() {
        if rest.is_empty() {
            break;
        }
        let (lexeme, len) = front(alloc, rest)?;
        let behind = pos + len as u32;
        rest = rest.split_at(len).1;
        match add_pieces(&mut found, lexeme, pos, behind, gap, rest)? {
            Some(next) => gap = next,
            None => return Ok(found),
        }
        pos = behind;
    }
    found.push_back(end_piece(pos, gap))?;
    Ok(found)
}
