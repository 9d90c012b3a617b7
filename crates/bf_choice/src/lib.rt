//! One of many pieces of Brainfuck, chosen by the binary digits of its number.
//!
//! Digit i of the number stands at cell 3i + 1, and the cell after it is to spare for the choice on it; both are 0
//! afterwards. The choices nest, the highest digit first, so a piece is reached through as many choices as there are
//! digits, and the text grows with the number of pieces and its logarithm. The number of the next choice is aimed at in
//! the third cell of each digit, and moves to the first when the digits advance.
#![tactic(auto)]

mod aiming;
mod choice;
mod laws;
mod pieces;

pub use aiming::{advance, aim, digit_of};
pub use laws::{
    aim_is_the_next_choice, chosen_pieces_come, chosen_pieces_run, digits_are_a_numbers,
    pick_is_by_number, trees_are_short,
};
pub use pieces::Pieces;
