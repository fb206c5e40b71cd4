//! What the compilers take: operators whose names are known, within the limits of the language.
#![tactic(auto)]

mod checked;
mod known;
mod laws;
mod limits;
mod names;
mod roles;
mod scope;
#[cfg(test)]
mod tests;

pub use checked::{Checked, check};
pub use laws::first_wrong_names;
pub use scope::{Declaration, Declared, Scoped};
