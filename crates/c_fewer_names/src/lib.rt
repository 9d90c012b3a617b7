//! The names that trees with fewer operators evaluate: all that they have, those of the trees as they were, those of helper functions, and names of letters, digits and `_`.
#![tactic(auto)]

mod laws;

pub use laws::{
    bodies_are_reached, bodies_of_programs_are_typed, evaluated_names_are_all,
    file_objects_are_named, firsts_start, formats_have_conversions,
    formats_of_programs_are_formats, helpers_call_defined, items_are_fit, main_is_reached,
    names_are_known, names_come_from_before, names_of_programs_are_known, names_pass,
    programs_stay_typed, typed_bodies_name_text, units_stay_typed,
};
