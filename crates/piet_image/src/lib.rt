//! Piet's images: plain pixel maps, their colours, and the codels that lie ahead of one.
#![tactic(auto)]

mod code;
mod colour;
mod header;
mod image;
mod laws;
mod met;
mod number;
mod pieces;
mod place;
mod read;
mod samples;
mod write;

pub use colour::Colour;
pub use image::Image;
pub use laws::{pictures_have_one_atlas, texts_are_decided, written_images_are_spelled};
pub use met::{Met, ahead, beside};
pub use place::{Chooser, Place, Pointer, Stand};
pub use read::{PpmFault, read_ppm};
pub use write::{write_header, write_row};
