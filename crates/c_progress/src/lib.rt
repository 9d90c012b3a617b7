//! Productions of C that begin with a token, and go on with it at the places that are left of them.
#![tactic(auto)]

pub mod begin;
pub mod places;
pub mod progress;
