//! The meaning of an operator, computed plainly: no compiler, no machine.
#![tactic(auto)]

mod eval;
mod exec;
mod run;
mod vars;

pub use run::{CRun, run_c};
pub use vars::CEnd;

#[cfg(test)]
mod tests;
