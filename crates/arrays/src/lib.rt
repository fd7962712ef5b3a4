// The arrays that the steps work on, with an entry for each row that there can be: the tree, what choosing goes by, and what is counted.
#![tactic(auto)]

ghost use Rattle.std.specs.Prelude.{◌≡◌, ◌<◌};
ghost use Rattle.input.specs.Limits.{most_rows};
ghost use Rattle.rules.specs.Box.{fresh, has_head};
ghost use Rattle.rules.specs.Steps.{with_head};
ghost use Rattle.arrays.specs.Arrays.{rows_in, no_tree, no_counts};

use input::{MOST_ROWS, RowLongs, RowWords};

// Each row's parent, depth and share. This and the next two are arrays side by side, as the definitions' `Tree` and `Rows` and the words of a live
// state have them: clauses speak of one list at a time.
#[derive(Clone, Copy)]
pub struct TreeArrays {
    pub parents: RowWords,
    pub depths: RowWords,
    pub shares: RowWords,
}

impl TreeArrays {
    // The tree before its first row is read.
    #[tactic(auto, unfolding(input::specs::Classes::zeros, crate::specs::Arrays::no_tree))]
    pub fn zeros() -> TreeArrays
        ensures { result ≡ no_tree }
    {
        TreeArrays {
            parents: [0; MOST_ROWS],
            depths: [0; MOST_ROWS],
            shares: [0; MOST_ROWS],
        }
    }
}

// Each row's start, finish and virtual time, and its head, which is its packet's place + 1 and 0 where there is none, with that packet's
// length and class.
#[derive(Clone, Copy)]
pub struct RowArrays {
    pub starts: RowLongs,
    pub finishes: RowLongs,
    pub virtuals: RowLongs,
    pub heads: RowWords,
    pub head_lengths: RowWords,
    pub head_classes: RowWords,
}

impl RowArrays {
    // The rows before the first event.
    #[tactic(auto, unfolding(input::specs::Classes::zeros, rules::specs::Box::fresh))]
    pub fn zeros() -> RowArrays
        ensures { rows_in result ≡ fresh.rows }
    {
        RowArrays {
            starts: [0; MOST_ROWS],
            finishes: [0; MOST_ROWS],
            virtuals: [0; MOST_ROWS],
            heads: [0; MOST_ROWS],
            head_lengths: [0; MOST_ROWS],
            head_classes: [0; MOST_ROWS],
        }
    }

    #[tactic(auto, unfolding(rules::specs::Box::has_head))]
    pub fn has_head(&self, r: usize) -> bool
        requires { r < most_rows }
        ensures { result ≡ has_head (rows_in self.now) r }
    {
        self.heads[r] != 0
    }

    // Row r has this head, of this length and class; nothing else changes.
    #[tactic(auto, unfolding(rules::specs::Steps::with_head))]
    pub fn set_head(&mut self, r: usize, packet: u32, length: u32, class: u32)
        requires { r < most_rows }
        ensures rows_after { rows_in self.new ≡ with_head r packet length class (rows_in self.old) }
    {
        self.heads[r] = packet;
        self.head_lengths[r] = length;
        self.head_classes[r] = class;
    }
}

// What each row finished, the packets that it holds, and its own and its parent's bytes finished when its backlog began.
#[derive(Clone, Copy)]
pub struct CountArrays {
    pub bytes: RowLongs,
    pub held: RowWords,
    pub since: RowLongs,
    pub parent_since: RowLongs,
}

impl CountArrays {
    // The counts before the first event.
    #[tactic(auto, unfolding(input::specs::Classes::zeros, crate::specs::Arrays::no_counts))]
    pub fn zeros() -> CountArrays
        ensures { result ≡ no_counts }
    {
        CountArrays {
            bytes: [0; MOST_ROWS],
            held: [0; MOST_ROWS],
            since: [0; MOST_ROWS],
            parent_since: [0; MOST_ROWS],
        }
    }
}
