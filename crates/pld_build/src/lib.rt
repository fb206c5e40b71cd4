//! Operators' images: each distinct pair of kind and text is compiled once.
#![tactic(auto)]

mod compiler;
mod jobs;
mod laws;
#[cfg(test)]
mod tests;

pub use compiler::{Built, Compiler};
pub use laws::{images_are_forms, images_keep_the_meaning, pairs_are_few, sources_are_processes};
