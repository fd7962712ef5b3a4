// All rows: which have the head of a child, and whether each row is sound.
ghost use Rattle.std.specs.Prelude.{◌≡◌, ◌≤◌};
ghost use Rattle.input.specs.Limits.{most_rows};
ghost use Rattle.arrays.specs.Arrays.{Inside};
ghost use Rattle.live_rules.specs.Limits.{most_accepted};
ghost use Rattle.holding.specs.Rows.{Matches, Loaded, RowsTested};

use crate::Walked;
use crate::row::{parent_of, passed_on, row_sound};
use arrays::{CountArrays, RowArrays, TreeArrays};
use input::{MOST_ROWS, RowMarks};

// Which rows have the head of one of their children among the first n.
pub fn matches_of<'a>(n: usize, tree: &'a TreeArrays, rows: &'a RowArrays) -> RowMarks
    requires { (n ≤ most_rows) × Inside tree.now.parents }
    ensures { Matches tree.now.parents rows.now.heads rows.now.head_lengths rows.now.head_classes n result }
{
    let mut marks = [false; MOST_ROWS];
    for t in 0..n {
        let p = parent_of(tree, t);
        marks[p] = marks[p] || passed_on(rows, t, p);
    }
    marks
}

// Whether each of the first n rows is sound, once so many packets have left.
pub fn rows_sound<'a>(
    n: usize,
    left: u64,
    tree: &'a TreeArrays,
    senders: &'a RowMarks,
    rows: &'a RowArrays,
    counts: &'a CountArrays,
    walked: &'a Walked,
) -> bool
    requires { (n ≤ most_rows) × (left ≤ most_accepted) × Inside tree.now.parents }
    ensures { RowsTested (Loaded n left tree.now senders.now rows.now counts.now walked.now) n result }
{
    (0..n).all(|r| row_sound(left, tree, senders, rows, counts, walked, r))
}
