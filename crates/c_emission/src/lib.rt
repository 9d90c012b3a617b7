//! Short pieces of the code to which C is lowered.
#![tactic(auto)]

mod location;
mod operators;
mod pieces;

pub use location::{Direct, Location};
pub use operators::{
    comparison_of, lifted_operand, opposite, put_compared, put_difference, put_jump_if_zero,
    put_jump_where, put_lift, put_lift_operand, put_sum, put_update_by, put_update_by_value,
};
pub use pieces::{
    constant, operand_of, put, put_call, put_call_through, put_jump, put_load, put_moved_from,
    put_point, put_ready, put_restore, put_return, put_save, put_store,
};
