//! Programs.
#![tactic(auto)]
