//! Routines of EIR, which are linked where they are used, and code with labels.
#![tactic(auto)]

mod both;
mod item;
mod laws;
mod linking;
mod pieces;
mod printing;
mod product;
mod quotient;
mod radix;
mod routine;
mod shifts;
mod signs;

pub use both::{put_both, put_one, put_some};
pub use item::Item;
pub use laws::{
    both_lands, decimal_lands, divide_lands, left_lands, linked_code_stands, numeral_lands,
    parts_stand, product_lands, right_lands, routines_rise, routines_serve, signed_divide_lands,
    signed_right_lands, some_lands, text_lands,
};
pub use linking::{LinkFault, link};
pub use printing::{put_decimal, put_numeral, put_text};
pub use product::put_product;
pub use quotient::put_divide;
pub use radix::Radix;
pub use routine::{Routine, Used, entry, put_routines};
pub use shifts::{put_left, put_right};
pub use signs::{put_signed_divide, put_signed_right};
