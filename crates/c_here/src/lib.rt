//! Where code of C stands: what is declared there, and which slots the function's names have; names as values, and what
//! operators do behind the code of their parts.
#![tactic(auto)]

mod behind;
mod here;
mod named;

pub use behind::{one_behind, sides_behind};
pub use here::Here;
pub use named::named_value;
