//! Functions and programs of texts as code, which do what the texts say, with the functions that print.
#![tactic(auto)]

mod laws;

pub use laws::{
    bodies_land, breaks_stay, plain_uses_land, printer_uses_land, spellers_land, text_calls_land,
    texts_are_followed, texts_are_lowered, typed_bodies_break_inside, typed_texts_break_inside,
};
