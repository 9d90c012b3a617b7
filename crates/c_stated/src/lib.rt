//! Statements as code, and what they cost.
#![tactic(auto)]

mod laws;

pub use laws::{
    code_fits_its_cost, declarations_land, statement_steps_fit, statements_land,
    text_fits_its_cost, texts_land, units_are_worth,
};
