//! C text: its tokens and its trees.
#![tactic(auto)]

mod bytes;
mod front;
mod header;
mod laws;
mod lexer;
mod raw;
mod scan;
pub mod text;
pub mod token;
pub mod tree;
mod words;

pub use header::{Header, Included, header_named, header_tokens};
pub use laws::{marks_are_longest, numbers_are_longest, texts_are_their_parts, words_are_longest};
pub use lexer::{lex, put};
pub use raw::lex_raw;
pub use text::Text;
pub use token::{Key, Kind, LexFault, Mark, Raw, RawKind, Token};
