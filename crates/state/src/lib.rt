// A lent live state, read into arrays of rows and tested whole.
#![tactic(auto)]

ghost use Rattle.std.specs.Prelude.{◌≡◌, ◌≤◌};
ghost use Rattle.std.proofs.Math.ListN as lists;
ghost use Rattle.live_rules.specs.Layout.{state_words};
ghost use Rattle.state.specs.Opened.{Opens};
ghost use Rattle.state.specs.Reading.{Read, RowsDecide};

mod counts;
mod filling;
mod reading;

use arrays::{CountArrays, RowArrays, TreeArrays};
use holding::Walked;
use input::{MOST_ROWS, RowMarks, RowWords};

// A state as it is read: its numbers as arrays with an entry for each row that there can be, the rows in use, and the packets held and accepted.
// It stays in one place while it is read and changed, since arrays that are handed on by value are copied each time.
#[derive(Clone, Copy)]
pub struct State {
    pub identifiers: RowWords,
    pub tree: TreeArrays,
    pub rows: RowArrays,
    pub counts: CountArrays,
    pub senders: RowMarks,
    pub rows_count: usize,
    pub packets: usize,
    pub accepted: u64,
}

impl State {
    // The arrays before a state is read: no rows, no packets.
    pub fn zeros() -> State
        ensures { (result.rows_count ≡ 0) × (result.packets ≡ 0) × (result.accepted ≡ 0) }
    {
        State {
            identifiers: [0; MOST_ROWS],
            tree: TreeArrays::zeros(),
            rows: RowArrays::zeros(),
            counts: CountArrays::zeros(),
            senders: [false; MOST_ROWS],
            rows_count: 0,
            packets: 0,
            accepted: 0,
        }
    }

    // Reads the state in the words, whatever was here: whether it is sound. If not, what stands here means nothing.
    pub fn open(&mut self, words: &[u64]) -> bool
        requires { state_words ≤ lists.length words.now }
        ensures { Opens words.now result self.new }
    {
        self.read(words) && self.rows_sound(words)
    }

    // The last test: what each class's queue begins with, what children hold and which heads were passed on, each from one walk, and then every row.
    fn rows_sound(&self, words: &[u64]) -> bool
        requires room { state_words ≤ lists.length words.now }
        requires was_read { Read words.now self.now }
        ensures { RowsDecide words.now self.now result }
    {
        let n = self.rows_count;
        let left = self.accepted - self.packets as u64;
        let firsts = holding::firsts_of(words, self.packets);
        let sums = soundness::children_sums(n, &self.tree.parents, &self.counts.held);
        let marks = holding::matches_of(n, &self.tree, &self.rows);
        let walked = Walked {
            sums,
            marks,
            firsts,
        };
        holding::rows_sound(
            n,
            left,
            &self.tree,
            &self.senders,
            &self.rows,
            &self.counts,
            &walked,
        )
    }
}
