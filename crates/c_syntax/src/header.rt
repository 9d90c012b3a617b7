//! The headers of the C library.

ghost use Rattle.std.specs.Prelude.{◌≡◌, ◌≤◌, ◌++◌, length, IfOk, OnOk};
ghost use Rattle.c_syntax.specs.Header.{header_named, text_of, kind_at, token_at, header_tokens};

use crate::scan::{Found, scan};
use crate::token::{Kind, RawKind, Token};
use crate::words::meaning;
use std::alloc::{AllocError, Global};
use std::collections::VecDeque;

/// A header that a text may include.
#[derive(Clone, Copy)]
pub enum Header {
    Stdio,
    Stdlib,
    String,
}

/// Which headers were included.
#[derive(Clone, Copy)]
pub struct Included {
    pub stdio: bool,
    pub stdlib: bool,
    pub string: bool,
}

const HEADERS: [(&[u8], Header); 3] = [
    (b"stdio", Header::Stdio),
    (b"stdlib", Header::Stdlib),
    (b"string", Header::String),
];

const STDLIB: &[u8] = b"int abs(int a){return a<0?-a:a;}";

const STRING: &[u8] =
    b"unsigned strlen(const char *s){unsigned n=0;while(s[n])n++;return n;}int strcmp(const char *a,const char *b){unsigned char x,y;while(*a&&*a==*b){a++;b++;}x=*a;y=*b;return x<y?-1:x>y;}char *strcpy(char *d,const char *s){char *r=d;while(*d++=*s++);return r;}void *memset(void *p,int c,unsigned n){char *q=p;while(n){*q++=c;n--;}return p;}void *memcpy(void *d,const void *s,unsigned n){char *q=d;const char *r=s;while(n){*q++=*r++;n--;}return d;}";

/// The header of a name, given without its `.h`.
#[tactic(auto, unfolding(crate::specs::Header::header_named))]
pub fn header_named(name: &[u8]) -> Option<Header>
    ensures { result ≡ header_named name.now }
{
    meaning(&HEADERS, name)
}

// The text that a header stands for.
#[tactic(auto, unfolding(crate::specs::Header::text_of))]
fn text_of(header: Header) -> &'static [u8]
    ensures value { result.now ≡ text_of header }
    ensures small { length result.now ≤ 1000 }
{
    match header {
        Header::Stdio => &[],
        Header::Stdlib => STDLIB,
        Header::String => STRING,
    }
}

// Adds a token of a header's text, unless it is the end.
fn add_kind(tokens: &mut VecDeque<Token>, kind: Kind, pos: u32) -> Result<(), AllocError>
    ensures { OnOk result (tokens.new.items ≡ tokens.old.items ++ kind_at kind pos) }
{
    match kind {
        Kind::End => Ok(()),
        kind => {
            tokens.push_back(Token { kind, pos })?;
            Ok(())
        }
    }
}

// Adds the token of a piece of a header's text.
fn add_found(tokens: &mut VecDeque<Token>, found: Found, pos: u32) -> Result<(), AllocError>
    ensures { OnOk result (tokens.new.items ≡ tokens.old.items ++ token_at found pos) }
{
    match found {
        Found::Token(RawKind::Plain(kind)) => add_kind(tokens, kind, pos),
        _ => Ok(()),
    }
}

/// The tokens that a header stands for, all at one place, without an end.
#[tactic(auto, unfolding(crate::specs::Header::header_tokens))]
pub fn header_tokens(alloc: Global, header: Header, pos: u32) -> Result<VecDeque<Token>, AllocError>
    ensures { IfOk result (λ v. v.items ≡ header_tokens header pos) }
{
    let mut tokens = VecDeque::new(alloc);
    let mut pieces = scan(alloc, text_of(header))?;
    while let Some(piece) = pieces.pop_front() {
        add_found(&mut tokens, piece.found, pos)?;
    }
    Ok(tokens)
}

impl Included {
    ghost use Rattle.std.specs.Prelude.{◌≡◌};
    ghost use Rattle.c_syntax.specs.Lex.{has, with_header, none_included};

    /// No header.
    pub fn none() -> Included
        ensures { result ≡ none_included }
    {
        Included {
            stdio: false,
            stdlib: false,
            string: false,
        }
    }

    /// Whether a header was included.
    pub fn has(self, header: Header) -> bool
        ensures { result ≡ has self header }
    {
        match header {
            Header::Stdio => self.stdio,
            Header::Stdlib => self.stdlib,
            Header::String => self.string,
        }
    }

    /// These headers and one more.
    pub fn with_header(self, header: Header) -> Included
        ensures { result ≡ with_header self header }
    {
        match header {
            Header::Stdio => Included {
                stdio: true,
                stdlib: self.stdlib,
                string: self.string,
            },
            Header::Stdlib => Included {
                stdio: self.stdio,
                stdlib: true,
                string: self.string,
            },
            Header::String => Included {
                stdio: self.stdio,
                stdlib: self.stdlib,
                string: true,
            },
        }
    }
}
