// Whether a live state is sound: the tests of its tree and of its rows, in walks that each pass the rows once.
#![tactic(auto)]

mod seen;
mod tree;

pub use tree::{children_sums, senders_of, tree_sound};
