// What an event does to the rows and to the counts before the way up begins: a packet arrives, or the line's packet leaves. Whoever calls
// these steps keeps the queues and the order, and goes the way up.
#![tactic(auto)]

ghost use Rattle.std.specs.Prelude.{◌≡◌, List, ℕ, suc, ◌≤◌, ◌<◌, ◌^◌, get_or, take};
ghost use Rattle.input.specs.Limits.{most_rows, most_bytes};
ghost use Rattle.rules.specs.Box.{Packet, Box};
ghost use Rattle.rules.specs.Steps.{leaves, renews, arrival, departure};
ghost use Rattle.arrays.specs.Arrays.{rows_in, tree_in};
ghost use Rattle.hierarchy.specs.Next.{next_of};
ghost use Rattle.hierarchy.specs.Climbing.{front_row, front_rows};
ghost use Rattle.counts.specs.Counts.{Counts};
ghost use Rattle.steps.specs.Ready.{Ready};

use arrays::{CountArrays, RowArrays, TreeArrays};

// A packet arrives for class k. The row from which the way up is gone then.
pub fn arrive(
    tree: &TreeArrays,
    rows: &mut RowArrays,
    counts: &mut CountArrays,
    place: u32,
    k: usize,
    length: u32,
) -> usize
    requires ready { Ready tree.now.parents tree.now.depths (rows_in rows.old) counts.old.bytes counts.old.held }
    requires k_is_row { k < most_rows }
    requires place_small { suc place < 2 ^ 32 }
    requires length_allowed { length ≤ most_bytes }
    ensures front { result ≡ front_row rows.old.heads k }
    ensures rows_after { (n : ℕ) (ids : List ℕ)
        → rows_in rows.new ≡ front_rows (tree_in n ids tree.now) place k length (rows_in rows.old) }
    ensures bytes_stay { counts.new.bytes ≡ counts.old.bytes }
    ensures counts_after { (n : ℕ) (ids : List ℕ) (box : Box)
        → Counts box counts.old
        → Counts (arrival (tree_in n ids tree.now) place k length box) counts.new }
{
    counts::enter(tree, counts, k);
    hierarchy::arrive(tree, rows, place, k, length)
}

// The line's packet leaves, and its class goes on with the next one: `next` is that packet's place + 1, or 0 where there is none, as the
// lent links have it. The class, from which the way up is gone then.
pub fn depart(
    tree: &TreeArrays,
    rows: &mut RowArrays,
    counts: &mut CountArrays,
    next: u32,
    length: u32,
) -> usize
    requires ready { Ready tree.now.parents tree.now.depths (rows_in rows.old) counts.old.bytes counts.old.held }
    requires class_is_row { get_or rows.old.head_classes 0 0 < most_rows }
    requires length_allowed { length ≤ most_bytes }
    ensures class_sent { result ≡ get_or rows.old.head_classes 0 0 }
    ensures rows_after { (n : ℕ) (ids : List ℕ) (later : List Packet) → take 1 later ≡ next_of next length
        → rows_in rows.new
        ≡ renews (tree_in n ids tree.now) result later (leaves (tree_in n ids tree.now) result (rows_in rows.old)) }
    ensures since_stays { counts.new.since ≡ counts.old.since }
    ensures parent_since_stays { counts.new.parent_since ≡ counts.old.parent_since }
    ensures counts_after { (n : ℕ) (ids : List ℕ) (box : Box)
        → box.rows ≡ rows_in rows.old
        → Counts box counts.old
        → Counts (departure (tree_in n ids tree.now) box) counts.new }
{
    let k = words::wide(rows.head_classes[0]);
    let gone = rows.head_lengths[0];
    hierarchy::finish_first(tree, rows, k);
    counts::leave(tree, counts, k, gone);
    hierarchy::renew(tree, rows, k, next, length);
    k
}
