//! Parts of runs that are undefined, and what they have shown.
#![tactic(auto)]
