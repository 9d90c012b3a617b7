//! What is emitted for a program of C, and built of it in a target, behaves as the program.
#![tactic(auto)]

mod few_laws;
mod laws;
mod room_laws;

pub use few_laws::{
    bodies_are_few, calls_may_be_called, functions_are_few, functions_of_texts_are_text_functions,
    operators_are_few, statements_are_few, statements_are_lettered, text_scopes_serve,
};
pub use laws::{
    built_moments_are_bounded, calls_of_plain_helpers, desugared_texts_stand,
    desugaring_keeps_meaning, formats_are_in_weight, formats_print, found_formats_are_formats,
    found_helpers_are_helpers, helpers_of_programs_are_there, meaning_follows, plain_helpers_are,
    printers_fail, programs_are_compiled, strings_are_put, strings_are_spelled, texts_are_compiled,
    what_follows_ends_in_time, what_follows_runs_as_its_source, what_follows_shows_the_meaning,
};
pub use room_laws::{
    bodies_call_by_kinds, costs_fit_rooms, helpers_fit, kept_helpers_fit, kinds_pay,
    programs_are_small, room_suffices, sizes_fit_costs, words_stay_few,
};
