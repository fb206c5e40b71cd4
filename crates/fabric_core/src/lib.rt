//! A run over a tree of switches, in code: its pages, its host, its network and its journal.
#![tactic(auto)]

mod board;
mod counts;
mod crossing;
mod fabric;
mod page;
mod plain;
mod plan;
mod prepare;
mod words;

pub use counts::Counts;
pub use fabric::{Fabric, Record};
pub use page::Page;
pub use plain::run_plain;
pub use plan::{Plan, PlanPage};
pub use words::Feed;
