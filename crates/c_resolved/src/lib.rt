//! What instructions have to know of the types of a text, and how the live memory shows that of a run; laws: with that instructions do what the types make of values.
#![tactic(auto)]

mod laws;

pub use laws::{
    assignments_show, blocks_show, conversions_show, differences_show, equality_shows,
    fetches_show, follows_show, kinds_show, leaving_keeps_lengths, leaving_shows, members_show,
    moves_show, operations_show, orders_show, pointers_show, reads_show, same_stays, truth_shows,
    uses_show, words_show, writes_show,
};
