//! The memory of a run of C: its live objects, and what pointers into them do.
#![tactic(auto)]

mod act;
mod find;
mod grow;
mod kind;
mod literal;
mod live;
mod pointers;
mod store;
mod value;

pub use act::{Act, number_of_act};
pub use kind::{Kind, as_pointer, is_of, is_true, used};
pub use literal::Literal;
pub use pointers::{at_offset, member_at, moved, offset_of, pointer_before, pointer_difference};
pub use store::Store;
pub use value::{Cell, Letter, Pointer, Value};
