//! Jobs of compiling, done one after another or on several threads: the same images either way.
#![tactic(auto)]

mod all;
mod compile;
mod crossing;
mod each;
mod job;
#[cfg(test)]
mod tests;

pub use all::compile_all;
pub use compile::{Compile, OneThread};
pub use each::compile_each;
pub use job::Job;
