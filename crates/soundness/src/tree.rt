// The tree of a live state: whether it is as an accepted table is read, which rows are sending classes, and what children have together.
ghost use Rattle.std.specs.Prelude.{◌≡◌, ℕ, List, not, ◌&&◌, ◌||◌, ◌≤◌, ◌<◌, ltb, leb, eqb, get_or};
ghost use Rattle.input.specs.Limits.{most_rows, most_identifier, whole};
ghost use Rattle.arrays.specs.Arrays.{tree_in};
ghost use Rattle.live_rules.specs.Soundness.{all, root_sound, class_sound};
ghost use Rattle.soundness.specs.Bits as bits;
ghost use Rattle.soundness.specs.Trees.{Inside, Senders, Sums, Named, RowsSound, TreeSound};

use crate::seen::{Seen, TABLE_WORDS, meet, met};
use arrays::TreeArrays;
use input::{MOST_DEPTH, MOST_IDENTIFIER, MOST_ROWS, RowLongs, RowMarks, RowWords, WHOLE};
use words::{long, wide};

// ── what is known of all rows from one walk ──

// The sending classes among the first n rows: no parent of a row, and not the root.
pub fn senders_of(n: usize, parents: &RowWords) -> RowMarks
    requires n_le_most_rows { n ≤ most_rows }
    requires inside { Inside n parents.now }
    ensures { Senders n parents.now result }
{
    let mut marks = [true; MOST_ROWS];
    marks[0] = false;
    for r in 1..n {
        marks[wide(parents[r])] = false;
    }
    marks
}

// What the children of each row, among the first n rows, have in a list together.
pub fn children_sums<'a>(n: usize, parents: &'a RowWords, list: &'a RowWords) -> RowLongs
    requires n_le_most_rows { n ≤ most_rows }
    requires inside { Inside n parents.now }
    ensures { Sums n parents.now list.now result }
{
    let mut sums = [0u64; MOST_ROWS];
    for r in 1..n {
        let p = wide(parents[r]);
        sums[p] += long(list[r]);
    }
    sums
}

// ── identifiers ──

// Whether an identifier goes on the air as it is, and was not met.
fn is_new(table: &Seen, identifier: u32) -> bool
    ensures { result ≡ (ltb 0 identifier && (leb identifier most_identifier && not (bits.met table.now identifier))) }
{
    0 < identifier && identifier <= MOST_IDENTIFIER && !met(table, identifier)
}

// Whether the first n rows have identifiers that go on the air as they are, no two the same.
fn all_named(n: usize, identifiers: &RowWords) -> bool
    requires { n ≤ most_rows }
    ensures { Named n identifiers.now result }
{
    let mut table = [0u64; TABLE_WORDS];
    for r in 0..n {
        let identifier = identifiers[r];
        if !is_new(&table, identifier) {
            return false;
        }
        meet(&mut table, identifier);
    }
    true
}

// ── rows ──

#[tactic(auto, unfolding(live_rules::specs::Soundness::root_sound))]
fn root_sound(tree: &TreeArrays) -> bool
    ensures { (n : ℕ) (ids : List ℕ) → result ≡ root_sound (tree_in n ids tree.now) }
{
    tree.parents[0] == 0 && tree.depths[0] == 0 && tree.shares[0] == 0
}

// Whether row r, which is not the root, stands below a row in use, at the next depth, with an allowed share.
#[tactic(auto, unfolding(live_rules::specs::Soundness::class_sound))]
fn class_sound(n: usize, tree: &TreeArrays, r: usize) -> bool
    requires n_le_most_rows { n ≤ most_rows }
    requires r_lt_n { r < n }
    ensures { (ids : List ℕ) → result ≡ class_sound (tree_in n ids tree.now) r }
{
    let p = wide(tree.parents[r]);
    p < n
        && wide(tree.depths[r]) == wide(tree.depths[p]) + 1
        && tree.depths[r] <= MOST_DEPTH
        && shares::allowed(tree.shares[r])
}

// Whether each of the first n rows but the root does.
fn classes_sound(n: usize, tree: &TreeArrays) -> bool
    requires { n ≤ most_rows }
    ensures { (ids : List ℕ) → result ≡ all n (λ r. eqb r 0 || class_sound (tree_in n ids tree.now) r) }
{
    (0..n).all(|r| r == 0 || class_sound(n, tree, r))
}

// Whether no number of the first n is more than a whole.
fn within_whole(n: usize, sums: &RowLongs) -> bool
    requires { n ≤ most_rows }
    ensures { result ≡ all n (λ p. leb (get_or sums.now p 0) whole) }
{
    (0..n).all(|p| sums[p] <= WHOLE as u64)
}

// Whether the root is sound, the rows are named and each class stands below its parent: all but what children have together.
fn rows_sound(n: usize, identifiers: &RowWords, tree: &TreeArrays) -> bool
    requires { n ≤ most_rows }
    ensures { RowsSound n identifiers.now tree.now result }
{
    root_sound(tree) && all_named(n, identifiers) && classes_sound(n, tree)
}

// Whether the tree of the first n rows is as an accepted table is read.
pub fn tree_sound<'a>(n: usize, identifiers: &'a RowWords, tree: &'a TreeArrays) -> bool
    requires n_le_most_rows { n ≤ most_rows }
    requires n_nonzero { 0 < n }
    ensures { TreeSound n identifiers.now tree.now result }
{
    rows_sound(n, identifiers, tree)
        && within_whole(n, &children_sums(n, &tree.parents, &tree.shares))
}
