//! The rows of a design whose operators stand on the leaves of a tree of pages.
#![tactic(auto)]

mod laws;
mod relink;
mod seats;
mod table;
#[cfg(test)]
mod tests;

pub use laws::{
    changes_make_the_new_rows, hosts_have_rows, no_changes_for_equal_rows, removed_rows_are_sent,
    rows_follow_the_channels, rows_have_slots, rows_name_each_other, rows_stand_in_order,
    rows_stand_on_leaves,
};
pub use relink::changes;
pub use seats::has_slots;
pub use table::tables;
