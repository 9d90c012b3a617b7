//! Maps and sets that number what they hold, in the order in which it came, over `std`'s hash map. They are `indexmap`'s, with
//! the few calls that the compiler of C makes: its tables stand in the types of many crates, and each crate whose types hold one
//! of `indexmap`'s loads all that is proved of that library (`docs/DECISIONS.md`).
#![tactic(auto)]

mod map;
mod set;

pub use map::OrderedMap;
pub use set::OrderedSet;
