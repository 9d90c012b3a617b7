//! The worked calls of the top call, as texts of rows: a heading with the calls that are made, one after another, on each of the
//! files below it, and behind each file what the last one writes, what is told, and the status. `elvm`'s tests read them.
#![tactic(auto)]

pub mod c_acts;
pub mod c_results;
pub mod c_rules;
pub mod c_texts;
pub mod c_units;
pub mod prefixes;
pub mod programs;
pub mod statuses;
