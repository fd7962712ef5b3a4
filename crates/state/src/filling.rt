// The lists of a state, read from its words.
ghost use Rattle.std.specs.Prelude.{◌≡◌, true, ◌≤◌};
ghost use Rattle.std.proofs.Math.ListN as lists;
ghost use Rattle.input.specs.Limits.{most_rows};
ghost use Rattle.live_rules.specs.Layout.{state_words};
ghost use Rattle.state.specs.Reading.{Fills, tree_small, TreeFilled, heads_small, HeadsFilled, TagsFilled};

use crate::State;
use crate::counts::counts_in;
use arrays::{CountArrays, RowArrays, TreeArrays};
use input::{MOST_BYTES, MOST_DEPTH, MOST_IDENTIFIER, RowWords, WHOLE};
use live_rules::{
    BYTES_AT, DEPTHS_AT, FINISHES_AT, HEAD_CLASSES_AT, HEAD_LENGTHS_AT, HEADS_AT, HELD_AT,
    IDENTIFIERS_AT, MOST_HELD, PARENT_SINCE_AT, PARENTS_AT, SHARES_AT, SINCE_AT, STARTS_AT,
    VIRTUALS_AT,
};
use storing::{fill_longs, fill_words};

// The last row that there can be, and the most that a word of 32 bits can be.
const LAST_ROW: u64 = 255;

const MOST_WORD: u64 = 4294967295;

// The tree of the first n rows: whether each word is as large as it can be at most.
fn fill_tree(words: &[u64], n: usize, identifiers: &mut RowWords, tree: &mut TreeArrays) -> bool
    requires { (n ≤ most_rows) × (state_words ≤ lists.length words.now) }
    ensures fits { result ≡ tree_small words.now n }
    ensures filled { result ≡ true → TreeFilled words.now n identifiers.new tree.new }
{
    if !fill_words(
        words,
        IDENTIFIERS_AT,
        n,
        MOST_IDENTIFIER as u64,
        identifiers,
    ) {
        return false;
    }
    if !fill_words(words, PARENTS_AT, n, LAST_ROW, &mut tree.parents) {
        return false;
    }
    if !fill_words(words, DEPTHS_AT, n, MOST_DEPTH as u64, &mut tree.depths) {
        return false;
    }
    fill_words(words, SHARES_AT, n, WHOLE as u64, &mut tree.shares)
}

// The heads and the packets that each row holds, likewise.
fn fill_heads(words: &[u64], n: usize, rows: &mut RowArrays, counts: &mut CountArrays) -> bool
    requires { (n ≤ most_rows) × (state_words ≤ lists.length words.now) }
    ensures fits { result ≡ heads_small words.now n }
    ensures filled { result ≡ true → HeadsFilled words.now n rows.new counts.new }
{
    if !fill_words(words, HEADS_AT, n, MOST_WORD, &mut rows.heads) {
        return false;
    }
    if !fill_words(
        words,
        HEAD_LENGTHS_AT,
        n,
        MOST_BYTES as u64,
        &mut rows.head_lengths,
    ) {
        return false;
    }
    if !fill_words(words, HEAD_CLASSES_AT, n, LAST_ROW, &mut rows.head_classes) {
        return false;
    }
    fill_words(words, HELD_AT, n, MOST_HELD as u64, &mut counts.held)
}

// The tags and the counts of 64 bits.
fn fill_tags(words: &[u64], n: usize, rows: &mut RowArrays, counts: &mut CountArrays)
    requires { (n ≤ most_rows) × (state_words ≤ lists.length words.now) }
    ensures { TagsFilled words.now n rows.old counts.old rows.new counts.new }
{
    fill_longs(words, STARTS_AT, n, &mut rows.starts);
    fill_longs(words, FINISHES_AT, n, &mut rows.finishes);
    fill_longs(words, VIRTUALS_AT, n, &mut rows.virtuals);
    fill_longs(words, BYTES_AT, n, &mut counts.bytes);
    fill_longs(words, SINCE_AT, n, &mut counts.since);
    fill_longs(words, PARENT_SINCE_AT, n, &mut counts.parent_since);
}

impl State {
    // All lists and the sending classes, where the counts are as many as there can be; false where they are not, or where a word is too large.
    pub fn fill(&mut self, words: &[u64]) -> bool
        requires { state_words ≤ lists.length words.now }
        ensures { Fills words.now result self.new }
    {
        let Some(counts) = counts_in(words) else {
            return false;
        };
        let n = counts.rows;
        if !fill_tree(words, n, &mut self.identifiers, &mut self.tree) {
            return false;
        }
        if !fill_heads(words, n, &mut self.rows, &mut self.counts) {
            return false;
        }
        fill_tags(words, n, &mut self.rows, &mut self.counts);
        self.senders = soundness::senders_of(n, &self.tree.parents);
        self.rows_count = n;
        self.packets = counts.packets;
        self.accepted = counts.accepted;
        true
    }
}
