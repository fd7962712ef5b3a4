// What the run counts along the tree's paths.
#![tactic(auto)]

ghost use Rattle.std.specs.Prelude.{◌≡◌, suc, pred, ℕ, ◌+◌, ◌-◌, ◌*◌, ◌≤◌, ◌<◌, ◌^◌, get_or};
ghost use Rattle.input.specs.Limits.{most_rows, most_depth};
ghost use Rattle.input.specs.Classes.{Tree};
ghost use Rattle.rules.specs.Box.{Box, head_class, head_length};
ghost use Rattle.rules.specs.Steps.{arrival, departure};
ghost use Rattle.counts.specs.Counts.{AtMost, most_finished, Paths, Counts, Entered, Left};

use arrays::{CountArrays, TreeArrays};
use input::RowWords;

// Row r's entry.
fn entry(list: &RowWords, r: usize) -> usize
    requires { r < most_rows }
    ensures { result ≡ get_or list.now r 0 }
{
    words::wide(list[r])
}

// Row r holds one packet more, and its backlog begins if it held nothing before.
fn enter_at(tree: &TreeArrays, counts: &mut CountArrays, r: usize)
    requires r_is_row { r < most_rows }
    requires parents_inside { AtMost (most_rows - 1) tree.now.parents }
    requires held_small { get_or counts.old.held r 0 ≤ 2 ^ 31 + most_depth }
    ensures { Entered tree.now r counts.old counts.new }
{
    if counts.held[r] == 0 {
        let p = entry(&tree.parents, r);
        counts.since[r] = counts.bytes[r];
        counts.parent_since[r] = counts.bytes[p];
    }
    counts.held[r] += 1;
}

// An arrival for class k, counted at every row on its path. Every parent is a row, so no index is out of range; with at most 8
// rows above k and at most 2^31 packets held no count overflows.
pub fn enter(tree: &TreeArrays, counts: &mut CountArrays, k: usize)
    requires k_is_row { k < most_rows }
    requires parents_inside { AtMost (most_rows - 1) tree.now.parents }
    requires shallow { get_or tree.now.depths k 0 ≤ most_depth }
    requires held_small { AtMost (2 ^ 31) counts.old.held }
    ensures bytes_stay { counts.new.bytes ≡ counts.old.bytes }
    ensures counted { (t : Tree) (box : Box) (place size : ℕ) →
        Paths t tree.now → Counts box counts.old → Counts (arrival t place k size box) counts.new }
{
    let mut r = k;
    let to_enter = entry(&tree.depths, k);
    for _ in 0..to_enter {
        enter_at(tree, counts, r);
        r = entry(&tree.parents, r);
    }
    enter_at(tree, counts, r);
}

// Row r has finished so many bytes more, and holds one packet less.
fn leave_at(counts: &mut CountArrays, r: usize, length: u64)
    requires r_is_row { r < most_rows }
    requires bytes_small { get_or counts.old.bytes r 0 ≤ most_finished + most_depth * 2 ^ 32 }
    requires length_small { length < 2 ^ 32 }
    ensures { Left length r counts.old counts.new }
{
    counts.bytes[r] += length;
    counts.held[r] = counts.held[r].saturating_sub(1);
}

// The finish of the line's packet, which is of class k and of this length, counted at every row on its path. Every parent is a
// row, so no index is out of range; with at most 8 rows above k and at most 2^45 bytes finished no count overflows.
pub fn leave(tree: &TreeArrays, counts: &mut CountArrays, k: usize, length: u32)
    requires k_is_row { k < most_rows }
    requires parents_inside { AtMost (most_rows - 1) tree.now.parents }
    requires shallow { get_or tree.now.depths k 0 ≤ most_depth }
    requires bytes_small { AtMost most_finished counts.old.bytes }
    ensures since_stays { counts.new.since ≡ counts.old.since }
    ensures parent_since_stays { counts.new.parent_since ≡ counts.old.parent_since }
    ensures counted { (t : Tree) (box : Box) →
        Paths t tree.now →
        head_class box.rows 0 ≡ k →
        head_length box.rows 0 ≡ length →
        Counts box counts.old →
        Counts (departure t box) counts.new }
{
    let long = length as u64;
    let mut r = k;
    let to_leave = entry(&tree.depths, k);
    for _ in 0..to_leave {
        leave_at(counts, r, long);
        r = entry(&tree.parents, r);
    }
    leave_at(counts, r, long);
}
