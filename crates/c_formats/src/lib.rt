//! The helper functions of numbers, strings and formats write what `printf` and `puts` write.
#![tactic(auto)]

mod laws;

pub use laws::{
    formats_are_written, formats_fail, hex_numbers_are_written, ints_are_written, puts_fails,
    strings_are_put, strings_are_written, strings_fail, unsigned_numbers_are_written,
};
