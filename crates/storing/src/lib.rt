// The words of a lent state, to arrays of rows and back, list by list and in their groups; packets put in and taken out.
#![tactic(auto)]

ghost use Rattle.std.specs.Prelude.{◌≡◌, true, false, MatchOption, List, [], ◌∷◌, ◌++◌, ℕ, ◌+◌, ◌≤◌, ◌<◌, ◌^◌, leb, get_or, take, drop};
ghost use Rattle.std.proofs.Math.ListN as lists;
ghost use Rattle.std.proofs.lemmas.List.Edits.{sets};
ghost use Rattle.input.specs.Limits.{most_rows, most_bytes};
ghost use Rattle.hierarchy.specs.Next.{next_of};
ghost use Rattle.live_rules.specs.Limits.{most_held};
ghost use Rattle.arrays.specs.Arrays.{rows_in, tree_in};
ghost use Rattle.live_rules.specs.Layout.{rows_word, state_words, words_at, rows_at};
ghost use Rattle.live_rules.specs.State.{Held, Live, queue, packets_at, rows_stored, tree_stored, tags_stored, heads_stored, counts_stored, packets_stored};
ghost use Rattle.live_rules.specs.Soundness.{all};
ghost use Rattle.storing.specs.Counted.{Counted};
ghost use Rattle.storing.specs.Packets.{Finds, left_out, Worded};

use arrays::{CountArrays, RowArrays, TreeArrays};
use input::{MOST_ROWS, RowLongs, RowWords};
use live_rules::{
    ACCEPTED_WORD, BYTES_AT, CLASSES_AT, DEPTHS_AT, FINISHES_AT, HEAD_CLASSES_AT, HEAD_LENGTHS_AT,
    HEADS_AT, HELD_AT, IDENTIFIERS_AT, LENGTHS_AT, NAMES_AT, PARENT_SINCE_AT, PARENTS_AT,
    ROWS_WORD, SHARES_AT, SINCE_AT, STARTS_AT, VIRTUALS_AT,
};

// ── lists of rows ──

// The words of the first n rows from a place on, into an array, with zeros for the rows out of use. It is filled where it stands, since arrays
// that are handed on by value are copied each time.
pub fn fill_longs(state: &[u64], at: usize, n: usize, list: &mut RowLongs)
    requires rows_few { n ≤ most_rows }
    requires state_room { at + most_rows ≤ lists.length state.now }
    ensures { list.new ≡ rows_at at n state.now }
{
    *list = [0; MOST_ROWS];
    list[..n].copy_from_slice(&state[at..at + n]);
}

// The same as shorter words: whether each is at most `most`. If not, the list means nothing.
pub fn fill_words(state: &[u64], at: usize, n: usize, most: u64, list: &mut RowWords) -> bool
    requires rows_few { n ≤ most_rows }
    requires state_room { at + most_rows ≤ lists.length state.now }
    requires most_small { most < 2 ^ 32 }
    ensures value { result ≡ all n (λ (i : ℕ). leb (get_or state.now (at + i) 0) most) }
    ensures list_after { result ≡ true → list.new ≡ rows_at at n state.now }
{
    *list = [0; MOST_ROWS];
    for r in 0..n {
        let word = state[at + r];
        if word > most {
            return false;
        }
        list[r] = shorter(word);
    }
    true
}

fn shorter(word: u64) -> u32
    requires { word < 2 ^ 32 }
    ensures { result ≡ word }
{
    word as u32
}

// Such a list by value, where each word is at most `most`.
pub fn load_words(state: &[u64], at: usize, n: usize, most: u64) -> Option<RowWords>
    requires rows_few { n ≤ most_rows }
    requires state_room { at + most_rows ≤ lists.length state.now }
    requires most_small { most < 2 ^ 32 }
    ensures { MatchOption result (all n (λ (i : ℕ). leb (get_or state.now (at + i) 0) most) ≡ false)
        (λ list. (all n (λ (i : ℕ). leb (get_or state.now (at + i) 0) most) ≡ true) × (list ≡ rows_at at n state.now)) }
{
    let mut list = [0u32; MOST_ROWS];
    if fill_words(state, at, n, most, &mut list) {
        return Some(list);
    }
    None
}

// The first n rows of a list, into the words from a place on.
pub fn store_longs(state: &mut [u64], at: usize, n: usize, list: &RowLongs)
    requires rows_few { n ≤ most_rows }
    requires state_room { at + most_rows ≤ lists.length state.old }
    ensures state_after { state.new ≡ rows_stored at n list.now state.old }
    ensures state_unchanged { lists.length state.new ≡ lists.length state.old }
{
    state[at..at + n].copy_from_slice(&list[..n]);
}

// The same of shorter words, each of which is widened: so no slice is copied whole.
pub fn store_words(state: &mut [u64], at: usize, n: usize, list: &[u32])
    requires rows_few { n ≤ most_rows }
    requires state_room { at + most_rows ≤ lists.length state.old }
    requires list_enough { n ≤ lists.length list.now }
    ensures state_after { state.new ≡ rows_stored at n list.now state.old }
    ensures state_unchanged { lists.length state.new ≡ lists.length state.old }
{
    for r in 0..n {
        state[at + r] = words::long(list[r]);
    }
}

// ── the groups of words: what a whole state is written by ──

// Rows in use, and packets ever accepted.
pub fn store_header(state: &mut [u64], n: usize, accepted: u64)
    requires { state_words ≤ lists.length state.old }
    ensures state_after { state.new ≡ sets state.old rows_word (n ∷ accepted ∷ []) }
    ensures state_unchanged { lists.length state.new ≡ lists.length state.old }
{
    state[ROWS_WORD] = counted(n);
    state[ACCEPTED_WORD] = accepted;
}

// The tree. Identifiers are as many as there are rows, or more.
pub fn store_tree(state: &mut [u64], n: usize, identifiers: &[u32], tree: &TreeArrays)
    requires rows_few { n ≤ most_rows }
    requires state_room { state_words ≤ lists.length state.old }
    requires identifiers_enough { n ≤ lists.length identifiers.now }
    ensures state_after { state.new ≡ tree_stored (tree_in n identifiers.now tree.now) state.old }
    ensures state_unchanged { lists.length state.new ≡ lists.length state.old }
{
    store_words(state, IDENTIFIERS_AT, n, identifiers);
    store_words(state, PARENTS_AT, n, &tree.parents);
    store_words(state, DEPTHS_AT, n, &tree.depths);
    store_words(state, SHARES_AT, n, &tree.shares);
}

// Starts, finishes and virtual times.
pub fn store_tags(state: &mut [u64], n: usize, rows: &RowArrays)
    requires rows_few { n ≤ most_rows }
    requires state_room { state_words ≤ lists.length state.old }
    ensures state_after { state.new ≡ tags_stored n (rows_in rows.now) state.old }
    ensures state_unchanged { lists.length state.new ≡ lists.length state.old }
{
    store_longs(state, STARTS_AT, n, &rows.starts);
    store_longs(state, FINISHES_AT, n, &rows.finishes);
    store_longs(state, VIRTUALS_AT, n, &rows.virtuals);
}

// The heads, with their lengths and classes.
pub fn store_heads(state: &mut [u64], n: usize, rows: &RowArrays)
    requires rows_few { n ≤ most_rows }
    requires state_room { state_words ≤ lists.length state.old }
    ensures state_after { state.new ≡ heads_stored n (rows_in rows.now) state.old }
    ensures state_unchanged { lists.length state.new ≡ lists.length state.old }
{
    store_words(state, HEADS_AT, n, &rows.heads);
    store_words(state, HEAD_LENGTHS_AT, n, &rows.head_lengths);
    store_words(state, HEAD_CLASSES_AT, n, &rows.head_classes);
}

// What is counted of each row, and what its lag starts from.
pub fn store_counts(state: &mut [u64], n: usize, counts: &CountArrays)
    requires rows_few { n ≤ most_rows }
    requires state_room { state_words ≤ lists.length state.old }
    ensures state_after { (live : Live) → Counted live counts.now → state.new ≡ counts_stored n live state.old }
    ensures state_unchanged { lists.length state.new ≡ lists.length state.old }
{
    store_longs(state, BYTES_AT, n, &counts.bytes);
    store_words(state, HELD_AT, n, &counts.held);
    store_longs(state, SINCE_AT, n, &counts.since);
    store_longs(state, PARENT_SINCE_AT, n, &counts.parent_since);
}

// ── packets ──

fn counted(x: usize) -> u64
    ensures { result ≡ x }
{
    x as u64
}

// A packet joins the m that are held, as the last.
pub fn put_packet(state: &mut [u64], m: usize, class: usize, size: u32, name: u32)
    requires packets_few { m < most_held }
    requires state_room { state_words ≤ lists.length state.old }
    ensures state_after { (packets : List Held) → packets_at m state.old ≡ packets → state.new ≡
        packets_stored (packets ++ record { class = class; length = size; name = name } ∷ []) state.old }
    ensures state_unchanged { lists.length state.new ≡ lists.length state.old }
{
    state[CLASSES_AT + m] = counted(class);
    state[LENGTHS_AT + m] = words::long(size);
    state[NAMES_AT + m] = words::long(name);
}

// Of the m words from a place on the one at index i goes, and the gap is closed; the last word stays where it was too. (The library
// has no copy within a slice.)
fn close(state: &mut [u64], at: usize, m: usize, i: usize)
    requires i_held { i < m }
    requires packets_few { m ≤ most_held }
    requires state_room { at + most_held ≤ lists.length state.old }
    ensures state_after { state.new ≡ sets state.old at (left_out i (words_at at m state.old)) }
    ensures state_unchanged { lists.length state.new ≡ lists.length state.old }
{
    for j in i..m - 1 {
        state[at + j] = state[at + j + 1];
    }
}

// The packet at index i leaves the m that are held.
pub fn take_packet(state: &mut [u64], m: usize, i: usize)
    requires i_held { i < m }
    requires packets_few { m ≤ most_held }
    requires state_room { state_words ≤ lists.length state.old }
    ensures state_after { state.new ≡ packets_stored (left_out i (packets_at m state.old)) state.old }
    ensures state_unchanged { lists.length state.new ≡ lists.length state.old }
{
    close(state, CLASSES_AT, m, i);
    close(state, LENGTHS_AT, m, i);
    close(state, NAMES_AT, m, i);
}

// The index of the packet with this name among the m that are held.
pub fn find_packet(state: &[u64], m: usize, name: u64) -> Option<usize>
    requires packets_few { m ≤ most_held }
    requires state_room { state_words ≤ lists.length state.now }
    ensures { Finds name (packets_at m state.now) result }
{
    state[NAMES_AT..NAMES_AT + m]
        .iter()
        .position(|word| *word == name)
}

// A class's next packet: its name + 1 and its length; 0 and 0 where there is none, as in the words of the lent state, which are fixed.
#[derive(Clone, Copy)]
pub struct Next {
    pub word: u32,
    pub size: u32,
}

fn next_at(name: u64, length: u64) -> Next
    requires { (name + 1 < 2 ^ 32) × (length < 2 ^ 32) }
    ensures { (result.word ≡ name + 1) × (result.size ≡ length) }
{
    Next {
        word: shorter(name) + 1,
        size: shorter(length),
    }
}

// The first packet of this class among the m that are held, from an index on.
pub fn next_packet(state: &[u64], m: usize, from: usize, class: usize) -> Next
    requires packets_few { m ≤ most_held }
    requires state_room { state_words ≤ lists.length state.now }
    requires worded { Worded (packets_at m state.now) }
    ensures { (next_of result.word result.size ≡ take 1 (queue (drop from (packets_at m state.now)) class)) × (result.size ≤ most_bytes) }
{
    let wanted = counted(class);
    for i in from..m {
        if state[CLASSES_AT + i] == wanted {
            return next_at(state[NAMES_AT + i], state[LENGTHS_AT + i]);
        }
    }
    Next { word: 0, size: 0 }
}
