//! Plain code of C that is emitted apart from the code so far, and put behind it later: the step of a `for`, which is
//! counted before the body, and the parts of a `switch`, before which the jumps to its labels stand; and jumps that are told at
//! places that are looked at first.
#![tactic(auto)]

mod aside;
mod cases;
mod jumps;

pub use aside::{append, put_back, set_aside};
pub use cases::{Label, case_jumps, default_place, jump_count};
pub use jumps::{both_sides, end_do, end_loop, fill, one_side, other_side};
