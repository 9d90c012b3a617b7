//! The words that directives begin with.

ghost use Rattle.std.specs.Prelude.{◌≡◌};
ghost use Rattle.std.specs.Str.{bytes_eq};
ghost use Rattle.c_prep.specs.Directives.{word_named, word_of};

use c_syntax::{Key, Kind, RawKind};

/// The word that a directive begins with.
#[derive(Clone, Copy)]
pub enum Word {
    Define,
    Undef,
    Ifdef,
    Ifndef,
    Else,
    Endif,
    Include,
    Other,
}

/// Whether a name is this word.
pub fn is_word(name: &[u8], word: &[u8]) -> bool
    ensures { result ≡ bytes_eq name.now word.now }
{
    name == word
}

// The word that a name is.
fn word_named(name: &[u8]) -> Word
    ensures { result ≡ word_named name.now }
{
    if is_word(name, b"define") {
        return Word::Define;
    }
    if is_word(name, b"undef") {
        return Word::Undef;
    }
    if is_word(name, b"ifdef") {
        return Word::Ifdef;
    }
    if is_word(name, b"ifndef") {
        return Word::Ifndef;
    }
    if is_word(name, b"endif") {
        return Word::Endif;
    }
    if is_word(name, b"include") {
        return Word::Include;
    }
    Word::Other
}

/// The word that a token is.
pub fn word_of(kind: &RawKind) -> Word
    ensures { result ≡ word_of kind.now }
{
    match kind {
        RawKind::Plain(Kind::Name(name)) => word_named(name.as_bytes()),
        RawKind::Plain(Kind::Key(Key::Else)) => Word::Else,
        _ => Word::Other,
    }
}
