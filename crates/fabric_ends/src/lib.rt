//! How runs end: what every run promises, that motion uses something up, and how many rounds are enough.
#![tactic(auto)]

mod bound;
mod progress;
mod rest;

pub use bound::spent_is_early;
pub use progress::{motion_ends, rounds_use_up, still_for_ever};
pub use rest::{
    plain_is_legal, plain_runs_are_one, plans_are_sound, replies_agree, rest_is_the_networks,
    rested_runs_agree, runs_end_once, runs_keep_their_promise, spent_makes_all_rounds,
};
