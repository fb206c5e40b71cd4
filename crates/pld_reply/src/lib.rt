//! The texts of the replies. Each is whole lines that end with byte 10; words of a line are separated by one space, and
//! numbers are decimal.
#![tactic(auto)]

mod image;
mod laws;
mod plain;
mod put;
mod refusals;
mod runs;
mod summary;
mod tables;
#[cfg(test)]
mod tests;

pub use image::put_image;
pub use laws::{run_replies_are_short, runs_have_outs};
pub use plain::{put_built, put_ok, put_stats};
pub use refusals::{Refusal, put_refused};
pub use runs::put_run;
pub use summary::put_summary;
pub use tables::{PlacedPage, put_tables};
