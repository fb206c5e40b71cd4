//! Who makes a session's runs and images: one thread, or workers on several.
#![tactic(auto)]

mod one;
mod runner;
mod workers;

pub use par_build::OneThread;
pub use runner::Runner;
pub use workers::Workers;
