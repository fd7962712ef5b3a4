// The test of a live state's packets and of what each row holds: it reads the lent words and the rows' numbers, and writes nothing.
#![tactic(auto)]

mod packets;
mod row;
mod rows;

use input::{RowLongs, RowMarks, RowWords};
pub use packets::{firsts_of, packets_sound};
pub use rows::{matches_of, rows_sound};

// For each class how many packets it holds, and its first packet's name + 1 and bytes, both 0 where there is none. An array for each, as the
// rows have theirs: the definitions of the tests go by lists.
#[derive(Clone, Copy)]
pub struct Firsts {
    pub counts: RowWords,
    pub words: RowWords,
    pub sizes: RowWords,
}

// What one walk each works out before the rows are tested: what the children of each row hold, which rows have the head of a child, and what each
// class's queue begins with.
#[derive(Clone, Copy)]
pub struct Walked {
    pub sums: RowLongs,
    pub marks: RowMarks,
    pub firsts: Firsts,
}
