//! The way from Brainfuck's registers to memory: a trail of marks that leads to a record, trips along it that carry units out
//! and back, and the last way home, which takes the marks up.
#![tactic(auto)]

mod laws;

pub use laws::{
    bytes_are_loaded, marks_are_laid, nests_lay_their_number, sides_are_reached, trails_are_laid,
    trails_are_taken_up, trails_are_walked, trails_grow, trips_are_units, words_are_brought,
    words_are_fetched, words_are_loaded, words_are_stored,
};
