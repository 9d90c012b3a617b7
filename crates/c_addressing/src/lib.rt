//! What is known of expressions of C where their code stands: their types' classes, the places of names and members,
//! and values that need no evaluation. Pieces of code that are added where code of C stands, told by the places and
//! numbers of the definitions.
#![tactic(auto)]

mod here;
mod locations;
mod names;
mod operators;
mod quiet;
mod spots;
mod typed;
mod values;

pub use here::{Here, Literals, Output};
pub use locations::{address_of, is_steady};
pub use names::{entry_of, located, named};
pub use operators::{
    call, call_through, compared, difference, jump_if_zero, jump_where, lifted, operation,
    returned, sum, update_by, update_by_value,
};
pub use quiet::is_quiet;
pub use spots::{Known, Spot, direct, known_place};
pub use typed::{class_in, constant_in, offset_behind, offset_in, target_class};
pub use values::{jump, load, moved_on, operand_of, point, ready, restore, save, store};
