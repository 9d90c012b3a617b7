//! The law of flat code: the code of expressions runs as they are evaluated, and the run of a text's code shows what the text means.
#![tactic(auto)]

mod laws;

pub use laws::law_of_code;
