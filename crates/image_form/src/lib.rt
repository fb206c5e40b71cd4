//! Images as bytes: the one spelling of each image, and its reader.
#![tactic(auto)]

mod fields;
mod form;
mod micros;
mod ops;
mod put;
mod reading;
mod states;
mod stop;
mod tables;
#[cfg(test)]
mod tests;
mod writing;

pub use form::{BadImage, ImageForm};
pub use reading::read_image;
pub use writing::image_bytes;
