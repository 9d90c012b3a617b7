//! Laws for who builds modules of WebAssembly: how their code runs, how it types, and what their memory holds.
#![tactic(auto)]

mod laws;

pub use laws::{
    blocks_open_and_close, branches_go_out, host_is_called, joined_code_types, main_ends,
    segments_read_as_words, straight_code_runs, typed_code_is_expression, words_are_apart,
};
