// What one row does, on arrays with an entry for each row that there can be: it gets a head, it is charged for one, it is filed with those
// that wait at its parent, and it chooses among its children. How a row finds the child that it takes is the one thing that the engines do
// not share: they have it as a `Finding`.
//
// What these functions require holds of every box. Rows and parents are rows that there can be, so no array is read outside. Lengths
// are packets', and every tag has the leeway for the ticks that its row is charged or passes, so no sum wraps.
#![tactic(auto)]

ghost use Rattle.std.specs.Prelude.{◌≡◌, List, ℕ, ◌+◌, ◌<◌, ◌≤◌, ◌^◌};
ghost use Rattle.input.specs.Limits.{most_rows, most_bytes};
ghost use Rattle.input.specs.Lent.{tree_with};
ghost use Rattle.rules.specs.Steps as steps;
ghost use Rattle.arrays.specs.Arrays.{rows_in, Inside, next_start_of};
ghost use Rattle.choosing.specs.Sizes.{Leeway, most_charge, most_choice};
ghost use Rattle.choosing.specs.Filed.{Chooses, Chosen};

use arrays::{RowArrays, TreeArrays};
use input::TICKS;
use rules::Why;

mod finding;
#[cfg(test)]
mod tests;

pub use finding::Finding;

// In a module of its own, so that `use choosing::*` brings one `open`, `file` and `find`, those of `Finding`.
pub mod by_tags {
    pub use crate::finding::FindingByTags;
}

// Where the next packet of row r starts: at its finish if its last packet has just finished, else not before its parent's
// virtual time.
#[tactic(auto, unfolding(rules::specs::Steps::next_start))]
fn next_start(tree: &TreeArrays, rows: &RowArrays, why: Why, r: usize) -> u64
    requires r_lt_most_rows { r < most_rows }
    requires inside { Inside tree.now.parents }
    ensures { result ≡ next_start_of tree.now.parents rows.now.finishes rows.now.virtuals why r }
{
    match why {
        Why::Finished => rows.finishes[r],
        Why::Arrived => rows.finishes[r].max(rows.virtuals[tree.parents[r] as usize]),
    }
}

// Row r, which is not the root, gets a head and is charged for it.
#[tactic(auto, using(looking::proofs::Parts::next_start_part), unfolding(rules::specs::Steps::new_head, rules::specs::Steps::charged, rules::specs::Steps::with_head))]
pub fn new_head(
    tree: &TreeArrays,
    rows: &mut RowArrays,
    why: Why,
    r: usize,
    packet: u32,
    length: u32,
    class: u32,
)
    requires r_lt_most_rows { r < most_rows }
    requires inside { Inside tree.now.parents }
    requires length_le_most_bytes { length ≤ most_bytes }
    requires leeway { Leeway most_charge (rows_in rows.old) }
    ensures { (n : ℕ) (ids depths : List ℕ)
        → rows_in rows.new
        ≡ steps.new_head (tree_with n ids tree.now.parents depths tree.now.shares) why r packet length class (rows_in rows.old) }
{
    let start = next_start(tree, rows, why, r);
    rows.starts[r] = start;
    rows.finishes[r] = start + shares::charge(length, tree.shares[r]);
    rows.set_head(r, packet, length, class);
}

// Row p, whose virtual time is raised to v, takes its child k: k's head is p's too, and p's virtual time passes over it.
#[tactic(auto, unfolding(rules::specs::Steps::takes, rules::specs::Steps::with_virtual, rules::specs::Steps::with_head))]
fn takes(tree: &TreeArrays, rows: &mut RowArrays, why: Why, p: usize, k: usize, v: u64)
    requires p_lt_most_rows { p < most_rows }
    requires k_lt_most_rows { k < most_rows }
    requires most_choice_bound { v + most_choice < 2 ^ 64 }
    requires inside { Inside tree.now.parents }
    requires leeway { Leeway most_choice (rows_in rows.old) }
    ensures { (n : ℕ) (ids depths : List ℕ)
        → v ≡ steps.raised (tree_with n ids tree.now.parents depths tree.now.shares) (rows_in rows.old) p
        → rows_in rows.new ≡ steps.takes (tree_with n ids tree.now.parents depths tree.now.shares) why p k (rows_in rows.old) }
{
    let packet = rows.heads[k];
    let length = rows.head_lengths[k];
    let class = rows.head_classes[k];
    rows.virtuals[p] = v + (TICKS * length) as u64;
    if p == 0 {
        rows.set_head(p, packet, length, class);
    } else {
        new_head(tree, rows, why, p, packet, length, class);
    }
}

// Row p, which has no head, chooses; where no child has a head it has none, and its tags stay.
pub fn chooses<F: Finding>(
    tree: &TreeArrays,
    rows: &mut RowArrays,
    finding: &mut F,
    why: Why,
    p: usize,
)
    requires chooses { (n : ℕ) × (ids : List ℕ) × (depths : List ℕ) × (class_of : ℕ → ℕ)
        × Chooses (F.filed finding.old) (tree_with n ids tree.now.parents depths tree.now.shares) class_of (rows_in rows.old) p }
    requires inside { Inside tree.now.parents }
    requires leeway { Leeway most_choice (rows_in rows.old) }
    ensures { (n : ℕ) (ids depths : List ℕ) (class_of : ℕ → ℕ)
        → Chooses (F.filed finding.old) (tree_with n ids tree.now.parents depths tree.now.shares) class_of (rows_in rows.old) p
        → Chosen (F.filed finding.new) (tree_with n ids tree.now.parents depths tree.now.shares) class_of why p (rows_in rows.old) (rows_in rows.new) }
{
    let choice = finding.find(rows, p);
    let child = choice.child;
    if child == 0 {
        rows.set_head(p, 0, 0, 0);
    } else {
        takes(tree, rows, why, p, child as usize, choice.time);
    }
}
