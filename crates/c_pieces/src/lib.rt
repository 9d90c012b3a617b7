//! The instructions that single expressions of C take, by what their parts are judged to be. The instructions that
//! calls of C take behind their arguments.
#![tactic(auto)]

mod calls;
mod formats;
mod lists;
mod pieces;
mod places;
mod types;

pub use calls::{direct, known, through};
pub use formats::print;
pub use lists::{parameter_list, pointed_list};
pub use pieces::{assigned, converted, fetched, followed, operated, stepped, updated};
pub use places::{cast, constant_word, named_place, nowhere, word};
pub use types::{pointed_type, side, type_of, value_side, value_type};
