// The tree of a class table, drawn with indents: of each row its identifier, its share, and its part of its parent and of the line.
#![tactic(auto)]

mod lines;
mod order;
mod parts;

pub use lines::put_tree;
pub use parts::{of_line, of_parent};
