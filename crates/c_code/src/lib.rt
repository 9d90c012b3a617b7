//! C texts as flat code, and the machine that runs it, as definitions.
#![tactic(auto)]
