//! Runs over the tree of switches whose journals are worked out by hand.
#![tactic(auto)]

#[cfg(test)]
mod entries;
mod small;
