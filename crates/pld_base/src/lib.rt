//! What every crate speaks of: words and their arithmetic, names, ports and events, permits, and
//! the one answer for want of memory.
#![tactic(auto)]

mod event;
mod fault;
mod memory;
mod name;
mod permit;
mod process;
pub mod words;

pub use event::{End, Event, Kind, PageId, Place, PortNo, RoundNo, Side, StepEnd};
pub use fault::{FaultKind, Limit, SourceFault};
pub use memory::{NoMemory, Refused};
pub use name::Name;
pub use permit::{Permit, Permits};
pub use process::{machines_are_processes, single_events_keep_window};
