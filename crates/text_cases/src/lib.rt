//! Operators' texts and their faults, worked out by hand from what the language says of them.
#![tactic(auto)]

#[cfg(test)]
mod texts;
