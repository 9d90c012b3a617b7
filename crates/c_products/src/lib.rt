//! The helper functions of products, quotients, what is left, and of pointers to wide elements compute what their operators do.
#![tactic(auto)]

mod laws;

pub use laws::{
    bits_and_is_assigned, bits_and_is_computed, bits_or_is_assigned, bits_or_is_computed,
    bits_xor_is_assigned, bits_xor_is_computed, complements_are_computed, differences_are_computed,
    int_quotients_are_assigned, int_quotients_are_computed, int_remainders_are_assigned,
    int_remainders_are_computed, int_shifts_right_are_assigned, int_shifts_right_are_computed,
    pointers_are_moved, products_are_assigned, products_are_computed, shifts_left_are_assigned,
    shifts_left_are_computed, steps_are_taken, sums_are_computed, swapped_sums_are_computed,
    unsigned_quotients_are_assigned, unsigned_quotients_are_computed,
    unsigned_remainders_are_assigned, unsigned_remainders_are_computed,
    unsigned_shifts_right_are_assigned, unsigned_shifts_right_are_computed,
};
