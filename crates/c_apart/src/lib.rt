//! Runs of helper functions with their own objects apart, and loops run to their end.
#![tactic(auto)]
