//! An operator's text as a tree, and its names looked up.
#![tactic(auto)]

mod copy;
mod laws;
mod lookup;
mod nodes;
mod operations;
mod places;
mod tree;

pub use laws::{operators_are_processes, words_stay_words};
pub use lookup::{join, type_after, type_between, type_in};
pub use nodes::{added, target_nodes, value_nodes};
pub use operations::{apply, apply_one};
pub use places::{Variable, count_ports, place_of, port_place, type_of_variable};
pub use tree::{Array, BinOp, Expr, Operator, Port, Scalar, Stmt, Target, Ty, UnOp, Used};
