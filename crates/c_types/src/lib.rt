//! The types of C text: which trees are typed, and where the others are refused; the values of constant expressions
//! and numbers of words; and types as numbers, where equal types have one number.
#![tactic(auto)]

mod arithmetic;
mod constant;
mod fault;
mod laws;
mod shape;
mod table;
mod typed;
mod words;

pub use constant::{Constant, binary_constant, choice_constant, comma_constant, unary_constant};
pub use fault::TypeFault;
pub use laws::{
    answers_are_of_typed_texts, assignments_keep_the_rule, calls_keep_the_rule,
    casts_convert_by_the_rule, equal_types_are_one, room_is_small, the_least_refusal_is_told,
    values_convert_by_the_rule,
};
pub use shape::Shape;
pub use table::Types;
pub use typed::Typed;
pub use words::Words;
