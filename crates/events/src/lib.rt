// One event of an input that is not refused: what it does to the rows, the counts, the queues and the order.
#![tactic(auto)]

ghost use Rattle.std.specs.Prelude.{List, ℕ};
ghost use Rattle.input.specs.Lent.{events_of};
ghost use Rattle.arrays.specs.Arrays.{rows_in, tree_in};
ghost use Rattle.events.specs.State.{Coming, Fronted, Gone};

use arrays::{CountArrays, RowArrays, TreeArrays};
use choosing::Finding;
use input::RowWords;
use rules::Why;

// Where an event leads before the way up: why rows choose then, the row from which the way up is gone, and its depth; and whether the line is idle.
#[derive(Clone, Copy)]
struct Front {
    why: Why,
    row: usize,
    depth: u32,
    idle: bool,
}

// The event at place i before the way up: the line has finished its packet where its row is 0, as the check of the list has it, else a packet
// has arrived for the class in that row.
fn meet<F: Finding>(
    tree: &TreeArrays,
    lengths: &[u32],
    rows: &mut RowArrays,
    counts: &mut CountArrays,
    lasts: &mut RowWords,
    working: &mut [u32],
    i: usize,
    row: u8,
) -> Front
    requires { (n : ℕ) × (ids : List ℕ) × (classes : List ℕ) × (sent : ℕ) × (f : F) × (order : List ℕ)
        × Coming (F.filed f) (tree_in n ids tree.now) (events_of classes lengths.now) i row sent
        (rows_in rows.old) counts.old lasts.old working.old order }
    ensures { (n : ℕ) (ids classes : List ℕ) (sent : ℕ) (f : F) (order : List ℕ)
        → Coming (F.filed f) (tree_in n ids tree.now) (events_of classes lengths.now) i row sent
        (rows_in rows.old) counts.old lasts.old working.old order
        → Fronted (F.filed f) F.filed (tree_in n ids tree.now) (events_of classes lengths.now) i sent order
        result.why result.row result.depth result.idle
        (rows_in rows.new) counts.new lasts.new working.old working.new }
{
    if row == 0 {
        let next = queues::leave_first(
            lasts,
            working,
            words::wide(rows.head_classes[0]),
            rows.heads[0],
        );
        let next_length = queues::length_of(lengths, next);
        let class = steps::depart(tree, rows, counts, next, next_length);
        return Front {
            why: Why::Finished,
            row: class,
            depth: tree.depths[class],
            idle: true,
        };
    }
    let k = row as usize;
    let idle = rows.heads[0] == 0;
    let from = steps::arrive(tree, rows, counts, i as u32, k, lengths[i]);
    queues::join(lasts, working, k, i as u32 + 1);
    Front {
        why: Why::Arrived,
        row: from,
        depth: tree.depths[from],
        idle,
    }
}

// The event at place i: the line has finished its packet where its row is 0, else a packet has arrived for the class in that row. So
// many packets have gone on the line after it. Of the table's identifiers and the events' classes it asks only that they are those of
// an input that is not refused, in which this event is for this row.
pub fn step<F: Finding>(
    tree: &TreeArrays,
    lengths: &[u32],
    rows: &mut RowArrays,
    finding: &mut F,
    counts: &mut CountArrays,
    lasts: &mut RowWords,
    working: &mut [u32],
    order: &mut [u32],
    i: usize,
    row: u8,
    sent: u32,
) -> u32
    requires { (n : ℕ) × (ids : List ℕ) × (classes : List ℕ)
        × Coming (F.filed finding.old) (tree_in n ids tree.now) (events_of classes lengths.now) i row sent
        (rows_in rows.old) counts.old lasts.old working.old order.old }
    ensures { (n : ℕ) (ids classes : List ℕ)
        → Coming (F.filed finding.old) (tree_in n ids tree.now) (events_of classes lengths.now) i row sent
        (rows_in rows.old) counts.old lasts.old working.old order.old
        → Gone (F.filed finding.new) (tree_in n ids tree.now) (events_of classes lengths.now) i result
        (rows_in rows.new) counts.new lasts.new working.old working.new order.old order.new }
{
    let front = meet::<F>(tree, lengths, rows, counts, lasts, working, i, row);
    hierarchy::up(tree, rows, finding, front.why, front.row, front.depth);
    queues::send(order, sent, front.idle, rows.heads[0])
}
