//! What is declared in C, and how it changes: names that are declared and taken back, functions that are declared more
//! than once, members of tags while they are declared; and first values: the objects that the values of a braced list stand
//! for, and the rules that a value keeps.
#![tactic(auto)]

mod figure;
mod functions;
mod length;
mod names;
mod rules;
mod slots;
mod tags;
mod value_rules;

pub use figure::{Figure, figure_of};
pub use functions::{entity_behind, found_here, may_declare};
pub use length::completed;
pub use names::{declare, settle};
pub use rules::{as_object, broken_rule, merged_behind};
pub use slots::{Slots, member_count, slots_of};
pub use tags::{close_tag, is_tag, open_tag};
pub use value_rules::{braces_fault, value_fault};
