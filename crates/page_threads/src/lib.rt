//! Workers that carry pages out of a shared run, turn them while the lock is free, and bring them back.
#![tactic(auto)]

mod all;
mod begun;
mod crossing;
mod moves;
mod shared;
mod work;

pub use all::work_all;
pub use shared::Shared;
pub use work::work_one;
