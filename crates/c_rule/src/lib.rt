//! The rule by which flat code goes on, one instruction a step.
#![tactic(auto)]

mod laws;

pub use laws::{
    faults_of_texts_are_silent, reads_behind_units, rule_means_text, rule_runs_code,
    runs_begin_meanings, texts_move_by_pieces,
};
