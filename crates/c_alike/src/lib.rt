//! In scopes that are alike for its names, a tree is what it is in the other.
#![tactic(auto)]

mod laws;

pub use laws::{
    declarations_keep_scopes_alike, expressions_are_judged_alike, types_are_judged_alike,
};
