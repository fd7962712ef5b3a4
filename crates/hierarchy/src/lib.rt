// The steps of the box, on arrays with an entry for each row that there can be: a packet arrives, the line's packet leaves, its
// class goes on; and then the way up, which all events have in common. Whoever calls them keeps the queues.
//
// What the steps require holds of every box. Rows, parents and depths are of rows that there can be, so no array is read outside.
// Lengths are packets', and every tag has the leeway for one charge, or for a choice a level. On the way up the children that wait are filed as
// the way to find one asks.
#![tactic(auto)]

ghost use Rattle.std.specs.Prelude.{◌≡◌, List, ℕ, ◌+◌, ◌<◌, ◌≤◌, ◌^◌};
ghost use Rattle.input.specs.Limits.{most_rows, most_bytes};
ghost use Rattle.input.specs.Lent.{tree_with};
ghost use Rattle.rules.specs.Steps as steps;
ghost use Rattle.arrays.specs.Arrays.{rows_in, tree_in, Inside};
ghost use Rattle.choosing.specs.Sizes.{Leeway, most_charge};
ghost use Rattle.hierarchy.specs.Sizes.{most_climb};
ghost use Rattle.hierarchy.specs.Next.{next_of};
ghost use Rattle.hierarchy.specs.Climbing.{Climbs, Settles, front_row, front_rows};

use arrays::{RowArrays, TreeArrays};
use choosing::Finding;
use rules::Why;

// From a row at this depth upwards: the row is filed with those that wait at its parent, and the parent chooses if it has no head; then the
// parent likewise, up to the root.
pub fn up<F: Finding>(
    tree: &TreeArrays,
    rows: &mut RowArrays,
    finding: &mut F,
    why: Why,
    row: usize,
    depth: u32,
)
    requires climbs { (n : ℕ) × (ids : List ℕ) × (depths : List ℕ) × (class_of : ℕ → ℕ)
        × Climbs (F.filed finding.old) (tree_with n ids tree.now.parents depths tree.now.shares) class_of (rows_in rows.old) row depth }
    requires inside { Inside tree.now.parents }
    requires leeway { Leeway most_climb (rows_in rows.old) }
    ensures { (n : ℕ) (ids depths : List ℕ) (class_of : ℕ → ℕ)
        → Climbs (F.filed finding.old) (tree_with n ids tree.now.parents depths tree.now.shares) class_of (rows_in rows.old) row depth
        → Settles (F.filed finding.new) (tree_with n ids tree.now.parents depths tree.now.shares) class_of
        (steps.up depth (tree_with n ids tree.now.parents depths tree.now.shares) why row (rows_in rows.old)) (rows_in rows.new) }
{
    let mut r = row;
    for _level in 0..depth {
        let p = tree.parents[r] as usize;
        finding.file(rows, p, r);
        if rows.has_head(p) {
            return;
        }
        choosing::chooses(tree, rows, finding, why, p);
        r = p;
    }
}

// The packet of class k leaves every row on its path: those have no head.
pub fn finish_first(tree: &TreeArrays, rows: &mut RowArrays, k: usize)
    requires k_lt_most_rows { k < most_rows }
    requires inside { Inside tree.now.parents }
    ensures { (n : ℕ) (ids : List ℕ)
        → rows_in rows.new ≡ steps.leaves (tree_in n ids tree.now) k (rows_in rows.old) }
{
    let depth = tree.depths[k];
    let mut r = k;
    for _level in 0..depth {
        rows.set_head(r, 0, 0, 0);
        r = tree.parents[r] as usize;
    }
    rows.set_head(r, 0, 0, 0);
}

// The next packet of class k, if it has one, is its head. `next` is that packet's place + 1, or 0 where there is none: as a head is kept.
#[tactic(auto, using(crate::proofs::Later::renews_none, crate::proofs::Later::renews_some))]
pub fn renew(tree: &TreeArrays, rows: &mut RowArrays, k: usize, next: u32, length: u32)
    requires k_lt_most_rows { k < most_rows }
    requires inside { Inside tree.now.parents }
    requires length_le_most_bytes { length ≤ most_bytes }
    requires leeway { Leeway most_charge (rows_in rows.old) }
    ensures { (n : ℕ) (ids : List ℕ)
        → rows_in rows.new ≡ steps.renews (tree_in n ids tree.now) k (next_of next length) (rows_in rows.old) }
{
    if next != 0 {
        choosing::new_head(tree, rows, Why::Finished, k, next, length, k as u32);
    }
}

// A packet arrives for class k: nothing changes if k has a head; else it is k's head. The row from which the way up is gone then: k, or the root,
// which has nobody above it.
#[tactic(auto, unfolding(crate::specs::Climbing::front_rows, crate::specs::Climbing::front_row, rules::specs::Box::has_head))]
pub fn arrive(tree: &TreeArrays, rows: &mut RowArrays, place: u32, k: usize, length: u32) -> usize
    requires k_is_row { k < most_rows }
    requires place_small { place + 1 < 2 ^ 32 }
    requires inside { Inside tree.now.parents }
    requires length_allowed { length ≤ most_bytes }
    requires leeway { Leeway most_charge (rows_in rows.old) }
    ensures front { result ≡ front_row rows.old.heads k }
    ensures rows_after { (n : ℕ) (ids : List ℕ)
        → rows_in rows.new ≡ front_rows (tree_in n ids tree.now) place k length (rows_in rows.old) }
{
    if rows.has_head(k) {
        return 0;
    }
    choosing::new_head(tree, rows, Why::Arrived, k, place + 1, length, k as u32);
    k
}
