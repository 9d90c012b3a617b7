//! EIR text: programs as lines.
#![tactic(auto)]

mod blocks;
mod data;
mod fault;
mod laws;
mod lines;
mod names;
mod placing;
mod read;
mod section;
mod statements;
mod values;

pub use fault::EirFault;
pub use laws::{
    blocks_end_at_labels_and_jumps, data_labels_name_what_follows, each_definition_counts,
    lines_make_the_text, lines_say_programs, pieces_are_laid_out, refusals_are_exact,
    refusals_name_the_lowest_line, text_labels_name_what_follows, texts_spell_once,
};
pub use read::read_eir;
