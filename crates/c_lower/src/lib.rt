//! The lowering of C: the program of EIR to which a typed text is lowered whose operators became calls of helper functions:
//! the objects of file scope, the opening call of `main`, and the code of each function in the order of the text.
#![tactic(auto)]

mod bodies;
mod function_code;
mod functions;
mod parameters;
mod placed;
mod scope;
mod start;
mod text_code;
mod texts;
mod whole;
mod words;

pub use whole::{LowerFault, lower};
