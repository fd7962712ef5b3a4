// One event of a live box, on arrays with an entry for each row that there can be: the run's own steps, the way up, and what went on the line.
// Which rows are children of which is listed at each event, since nothing is kept from one to the next but the state.
#![tactic(auto)]

ghost use Rattle.std.specs.Prelude.{◌≡◌, List, ℕ};
ghost use Rattle.rules.specs.Box.{Box};
ghost use Rattle.rules.specs.Steps.{arrival, departure};
ghost use Rattle.arrays.specs.Arrays.{rows_in, tree_in};
ghost use Rattle.queues.specs.Words.{sent_word};
ghost use Rattle.moving.specs.Arrays.{Arrays, Arrives, Finishes, Done, went};

use arrays::{CountArrays, RowArrays, TreeArrays};
use looking::Looking;
use rules::Why;

// What goes on a line that is idle or not, where this is the root's head.
#[tactic(auto, unfolding(queues::specs::Words::sent_word))]
fn on_line(idle: bool, head: u32) -> Option<u32>
    ensures { went result ≡ sent_word idle head }
{
    if idle && head != 0 {
        return Some(head - 1);
    }
    None
}

// A packet arrives for class k, of a tree with n rows: the packet that went on the line, if one did.
pub fn arrive(
    n: usize,
    tree: &TreeArrays,
    rows: &mut RowArrays,
    counts: &mut CountArrays,
    place: u32,
    k: usize,
    size: u32,
) -> Option<u32>
    requires { (ids : List ℕ) × (box : Box) × Arrives (tree_in n ids tree.now) place k size box
        × Arrays box (rows_in rows.old) counts.old }
    ensures bytes_stay { counts.new.bytes ≡ counts.old.bytes }
    ensures arrived { (ids : List ℕ) (box : Box) → Arrives (tree_in n ids tree.now) place k size box
        → Arrays box (rows_in rows.old) counts.old
        → Done box.order (arrival (tree_in n ids tree.now) place k size box) result (rows_in rows.new) counts.new }
{
    let mut finding = Looking::list_children(n, &tree.parents);
    let idle = rows.heads[0] == 0;
    let from = steps::arrive(tree, rows, counts, place, k, size);
    let depth = tree.depths[from];
    hierarchy::up(tree, rows, &mut finding, Why::Arrived, from, depth);
    on_line(idle, rows.heads[0])
}

// The line has finished its packet; the next of its class, if it has one, has this place + 1 and this length. Both are 0 else, as the
// words of a live state have it.
pub fn finish(
    n: usize,
    tree: &TreeArrays,
    rows: &mut RowArrays,
    counts: &mut CountArrays,
    next: u32,
    size: u32,
) -> Option<u32>
    requires { (ids : List ℕ) × (place : ℕ) × (box : Box) × Finishes (tree_in n ids tree.now) place next size box
        × Arrays box (rows_in rows.old) counts.old }
    ensures since_stays { counts.new.since ≡ counts.old.since }
    ensures parent_since_stays { counts.new.parent_since ≡ counts.old.parent_since }
    ensures finished { (ids : List ℕ) (place : ℕ) (box : Box) → Finishes (tree_in n ids tree.now) place next size box
        → Arrays box (rows_in rows.old) counts.old
        → Done box.order (departure (tree_in n ids tree.now) box) result (rows_in rows.new) counts.new }
{
    let mut finding = Looking::list_children(n, &tree.parents);
    let class = steps::depart(tree, rows, counts, next, size);
    let depth = tree.depths[class];
    hierarchy::up(tree, rows, &mut finding, Why::Finished, class, depth);
    on_line(true, rows.heads[0])
}
