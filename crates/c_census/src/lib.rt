//! Sums over declarations and statements of C: their weight, whether a type in them has too many words, and what makes the charge of a
//! call: their nodes and the words of their objects.
#![tactic(auto)]

mod calls;
mod functions;
mod heads;
mod locals;
mod members;
mod statements;
mod tags;
mod values;

pub use calls::charge;
pub use functions::count_function;
pub use locals::{Local, count_forgotten, count_local, forget};
pub use members::{count_members, count_parameters, declared_sum};
pub use statements::{count_body, count_list, count_statement};
pub use tags::count_tag;
pub use values::{count_first, count_value};
