//! What each legal entry of a journal keeps, whatever carries packets, and what code may call then.
#![tactic(auto)]

mod calls;
mod entries;
mod leaves;

pub use calls::{
    calls_are_allowed, carriers_run_well, configuration_ends, leaves_offer_so, pages_out_stay,
    stamps_differ,
};
pub use entries::{each_entry_keeps, legal_runs_keep};
pub use leaves::accounts_go_on;
