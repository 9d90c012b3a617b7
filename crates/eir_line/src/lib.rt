//! One line of EIR text.
#![tactic(auto)]

mod bytes;
mod labels;
mod laws;
mod line;
mod numbers;
mod operands;
mod range;
mod reading;
mod strings;
mod terms;
mod words;

pub use laws::forms_are_spelled;
pub use line::{LineFault, ReadLine, ReadStatement, ReadTerm};
pub use numbers::number_up_to;
pub use range::is_in_range;
pub use reading::read_line;
pub use words::{BinaryOp, Mnemonic, mnemonic_of, register_of};
