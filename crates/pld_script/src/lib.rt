//! The statements of a session's text: its lines, the words of a line, and what they say.
#![tactic(auto)]

mod chain;
mod depth;
mod grammar;
mod laws;
mod levels;
mod line;
mod next;
mod number;
mod scan;
mod statement;
mod text;
mod window;

pub use chain::gen_script;
pub use depth::Depth;
pub use laws::firsts_are_one;
pub use levels::Levels;
pub use line::LineKind;
pub use next::{Found, Next, Skipped, next_statement};
pub use scan::Scan;
pub use statement::{Edit, Statement};
pub use text::{Text, WordList};
pub use window::Window;
