//! Where the functions of a text stand in its program, and those to which objects point.
#![tactic(auto)]

mod laws;

pub use laws::{
    code_is_laid, data_fits, data_lies, first_memories_mean, functions_are_lettered,
    literals_of_texts_are_words, objects_are_few, objects_have_words,
    pointed_functions_are_defined, small_programs_have_room,
};
