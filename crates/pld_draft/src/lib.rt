//! A design as it is edited: its operators with their texts, its channels, and the words of its inputs.
#![tactic(auto)]

mod draft;
mod feeds;
mod parts;

pub use draft::Draft;
pub use parts::{EditFault, EditRefusal, Feed, Source};
