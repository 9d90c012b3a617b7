//! First values of C's objects at file scope: what a constant expression, a string, `NULL` or a name is worth there, and
//! the cells that a first value gives.
#![tactic(auto)]

mod cells;
mod form;
mod named;
mod strings;
mod values;
mod zeros;

pub use cells::{add_cells, type_at};
pub use form::{StaticForm, static_form};
pub use named::is_object;
pub use strings::{pass_literal, spelled};
pub use values::static_value;
pub use zeros::add_zeros;
