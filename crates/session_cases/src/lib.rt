//! Whole sessions in memory, with replies made by hand.
#![tactic(auto)]

#[cfg(test)]
mod answers;
#[cfg(test)]
mod chain;
#[cfg(test)]
mod designs;
