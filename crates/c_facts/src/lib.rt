//! What a parser of C asks of a part that was read, and the facts that it keeps of a new one.
#![tactic(auto)]

mod asking;

pub use asking::facts;
