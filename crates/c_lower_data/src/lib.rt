//! What is known of a whole text of C before its code is made: the first blocks of its functions, where its string literals
//! lie, and the words of first values at file scope.
#![tactic(auto)]

mod blocks;
mod letters;
mod statics;
mod words;

pub use blocks::entries;
pub use letters::{add_addresses, add_letters};
pub use statics::add_first_words;
