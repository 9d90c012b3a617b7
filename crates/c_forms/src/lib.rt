//! Expressions of C by their forms, and the types that a text writes: what they are when their parts are judged.
//! Operators of C that ask what the members of tags are or what two parts agree on: sums, elements, steps,
//! assignments by an operator, `sizeof`, members of structs and choices of two.
#![tactic(auto)]

mod apply;
mod arrays;
mod branches;
mod elements;
mod form;
mod functions;
mod given;
mod judged;
mod members;
mod operation;
mod parts;
mod places;
mod sizes;
mod steps;
mod sums;

pub use apply::{one, two};
pub use arrays::{open_array, sized_array};
pub use branches::choice;
pub use elements::index;
pub use form::{One, Two};
pub use functions::{function_type, more_types};
pub use given::{Given, both, common, either, or_else, type_number, when};
pub use judged::pointer_type;
pub use members::{arrow, member};
pub use operation::{binary, binary_type};
pub use parts::{after_cast, after_one, after_size, after_three, after_two};
pub use places::{pointed, target};
pub use sizes::size;
pub use steps::{step, update};
pub use sums::{difference_type, is_element_pointer, sum_type};
