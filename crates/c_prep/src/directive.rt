//! Directives, read from the tokens behind a `#`.

ghost use Rattle.std.specs.Prelude.{◌≡◌};
ghost use Rattle.c_prep.specs.Directives.{first_place, name_at, define_at, name_before, lone_name, is_less, is_dot, is_greater, is_h, header_of, ends_header, header_before, include_at, passed_over, taken_up, directive_at, with_name, If, Undef};

use crate::word::{Word, is_word, word_of};
use c_syntax::{Header, Kind, Mark, Raw, RawKind, header_named};

/// A directive.
#[derive(Clone, Copy)]
pub enum ReadDirective<'t> {
    Empty,
    Define {
        name: &'t [u8],
        /// The place of the name.
        pos: u32,
        tokens: &'t [Raw],
    },
    Undef(&'t [u8]),
    If {
        name: &'t [u8],
        /// Whether the name is to be kept.
        wanted: bool,
    },
    /// `#else`, with the place of a token too many.
    Turn(Option<u32>),
    /// `#endif`, with the place of a token too many.
    Close(Option<u32>),
    Include(Header),
}

ghost use Rattle.c_prep.specs.Views.{seen, directive_of};

// The place of the first token.
fn first_place(args: &[Raw]) -> Option<u32>
    ensures { result ≡ first_place args.now }
{
    match args {
        [] => None,
        [raw, ..] => Some(raw.pos),
    }
}

// The name that a token is, or the place of the refusal.
#[tactic(auto, unfolding(crate::specs::Directives::name_at))]
fn name_at<'t>(at: u32, raw: &'t Raw) -> Result<&'t [u8], u32>
    ensures { seen (λ n. n.now) result ≡ name_at at raw.now }
{
    match &raw.kind {
        RawKind::Plain(Kind::Name(name)) => Ok(name.as_bytes()),
        RawKind::Plain(Kind::Key(_)) => Err(raw.pos),
        _ => Err(at),
    }
}

// A name with the tokens behind it.
fn define_at<'t>(at: u32, args: &'t [Raw]) -> Result<ReadDirective<'t>, u32>
    ensures { seen directive_of result ≡ define_at at args.now }
{
    match args {
        [] => Err(at),
        [first, tokens @ ..] => match name_at(at, first) {
            Ok(name) => Ok(ReadDirective::Define {
                name,
                pos: first.pos,
                tokens,
            }),
            Err(p) => Err(p),
        },
    }
}

// A name, if no token stands behind it.
fn name_before<'t>(rest: &[Raw], name: &'t [u8]) -> Result<&'t [u8], u32>
    ensures { seen (λ n. n.now) result ≡ name_before rest.now name.now }
{
    match rest {
        [] => Ok(name),
        [raw, ..] => Err(raw.pos),
    }
}

// A name with no token behind it.
#[tactic(auto, unfolding(crate::specs::Directives::lone_name))]
fn lone_name<'t>(at: u32, args: &'t [Raw]) -> Result<&'t [u8], u32>
    ensures { seen (λ n. n.now) result ≡ lone_name at args.now }
{
    match args {
        [] => Err(at),
        [first, rest @ ..] => match name_at(at, first) {
            Ok(name) => name_before(rest, name),
            Err(p) => Err(p),
        },
    }
}

fn is_less(kind: &RawKind) -> bool
    ensures { result ≡ is_less kind.now }
{
    match kind {
        RawKind::Plain(Kind::Mark(Mark::Less)) => true,
        _ => false,
    }
}

fn is_dot(kind: &RawKind) -> bool
    ensures { result ≡ is_dot kind.now }
{
    match kind {
        RawKind::Plain(Kind::Mark(Mark::Dot)) => true,
        _ => false,
    }
}

fn is_greater(kind: &RawKind) -> bool
    ensures { result ≡ is_greater kind.now }
{
    match kind {
        RawKind::Plain(Kind::Mark(Mark::Greater)) => true,
        _ => false,
    }
}

fn is_h(kind: &RawKind) -> bool
    ensures { result ≡ is_h kind.now }
{
    match kind {
        RawKind::Plain(Kind::Name(name)) => is_word(name.as_bytes(), b"h"),
        _ => false,
    }
}

// The header that a token names.
#[tactic(auto, unfolding(crate::specs::Directives::header_of))]
fn header_of(kind: &RawKind) -> Option<Header>
    ensures { result ≡ header_of kind.now }
{
    match kind {
        RawKind::Plain(Kind::Name(name)) => header_named(name.as_bytes()),
        _ => None,
    }
}

// Whether `.h>` stands right behind a header's name.
fn ends_header(dot: &Raw, h: &Raw, greater: &Raw) -> bool
    ensures { result ≡ ends_header dot.now h.now greater.now }
{
    is_dot(&dot.kind)
        && dot.close
        && is_h(&h.kind)
        && h.close
        && is_greater(&greater.kind)
        && greater.close
}

// A header, if no token stands behind it.
fn header_before<'t>(rest: &[Raw], header: Header) -> Result<ReadDirective<'t>, u32>
    ensures { seen directive_of result ≡ header_before rest.now header }
{
    match rest {
        [] => Ok(ReadDirective::Include(header)),
        [raw, ..] => Err(raw.pos),
    }
}

// A header between `<` and `>`.
#[tactic(auto, using(crate::proofs::Directing::short_include))]
fn include_at<'t>(at: u32, args: &'t [Raw]) -> Result<ReadDirective<'t>, u32>
    ensures { seen directive_of result ≡ include_at at args.now }
{
    let [less, name, dot, h, greater, rest @ ..] = args else {
        return Err(at);
    };
    if !(is_less(&less.kind) && name.close && ends_header(dot, h, greater)) {
        return Err(at);
    }
    match header_of(&name.kind) {
        Some(header) => header_before(rest, header),
        None => Err(at),
    }
}

// A conditional on a name.
fn condition<'t>(at: u32, args: &'t [Raw], wanted: bool) -> Result<ReadDirective<'t>, u32>
    ensures { seen directive_of result ≡ with_name (lone_name at args.now) (λ name. Ok (If name wanted)) }
{
    match lone_name(at, args) {
        Ok(name) => Ok(ReadDirective::If { name, wanted }),
        Err(p) => Err(p),
    }
}

// A name to be dropped.
fn undef_at<'t>(at: u32, args: &'t [Raw]) -> Result<ReadDirective<'t>, u32>
    ensures { seen directive_of result ≡ with_name (lone_name at args.now) (λ name. Ok (Undef name)) }
{
    match lone_name(at, args) {
        Ok(name) => Ok(ReadDirective::Undef(name)),
        Err(p) => Err(p),
    }
}

// The directive of a line in a part that isn't taken.
#[tactic(auto, unfolding(crate::specs::Directives::passed_over))]
fn passed_over<'t>(word: Word, at: u32, args: &'t [Raw]) -> Result<ReadDirective<'t>, u32>
    ensures { seen directive_of result ≡ passed_over word at args.now }
{
    match word {
        Word::Ifdef => condition(at, args, true),
        Word::Ifndef => condition(at, args, false),
        Word::Else => Ok(ReadDirective::Turn(first_place(args))),
        Word::Endif => Ok(ReadDirective::Close(first_place(args))),
        _ => Ok(ReadDirective::Empty),
    }
}

// The directive of a line in a part that is taken.
#[tactic(auto, unfolding(crate::specs::Directives::taken_up))]
fn taken_up<'t>(word: Word, at: u32, args: &'t [Raw]) -> Result<ReadDirective<'t>, u32>
    ensures { seen directive_of result ≡ taken_up word at args.now }
{
    match word {
        Word::Define => define_at(at, args),
        Word::Undef => undef_at(at, args),
        Word::Include => include_at(at, args),
        Word::Other => Err(at),
        _ => passed_over(word, at, args),
    }
}

/// The directive of a line by the tokens behind its `#`, or the place of the refusal.
#[tactic(auto, unfolding(crate::specs::Directives::directive_at))]
pub fn directive_at<'t>(taken: bool, at: u32, args: &'t [Raw]) -> Result<ReadDirective<'t>, u32>
    ensures { seen directive_of result ≡ directive_at taken at args.now }
{
    match args {
        [] => Ok(ReadDirective::Empty),
        [word, rest @ ..] => {
            let word = word_of(&word.kind);
            if taken {
                taken_up(word, at, rest)
            } else {
                passed_over(word, at, rest)
            }
        }
    }
}
