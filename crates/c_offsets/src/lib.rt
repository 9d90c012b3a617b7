//! How many words of a struct of C stand before a member.
#![tactic(auto)]

mod offset;

pub use offset::{member_offset, member_words};
