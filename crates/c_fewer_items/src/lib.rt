//! Externals with fewer operators, and the helper functions in front of them, are typed where those of the text are and within the limits; their functions stand for the text's.
#![tactic(auto)]

mod laws;

pub use laws::{
    definitions_are_joined, definitions_stay_limited, expressions_are_ordinary,
    files_stand_as_scopes, firsts_are_found, firsts_are_known, firsts_are_typed,
    formats_are_declared, formats_are_distinct, formats_are_known, formats_are_typed,
    fronts_are_limited, fronts_are_typed, fronts_have_no_objects, fronts_have_own_names,
    functions_are_found, helpers_are_typed, items_stay_typed, objects_stay_the_same,
    others_are_kept, others_stay, starts_stand, statements_are_ordinary, typed_texts_are_ordinary,
};
