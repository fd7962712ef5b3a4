// All that is refused of a class table, row by row, and not the first alone: for whoever mends it in one go. It writes nothing that is lent.
#![tactic(auto)]

ghost use Rattle.std.specs.Prelude.{◌≡◌, ◌≤◌, ◌<◌, ◌^◌};
ghost use Rattle.input.specs.Limits.{most_rows};
ghost use Rattle.input.specs.Classes.{Tree};
ghost use Rattle.input.specs.Lent.{table_of};
ghost use Rattle.tables.specs.Judged.{verdict};
ghost use Rattle.tables.specs.Answers.{verdicts};
ghost use Rattle.refusals.specs.All as all;
ghost use Rattle.refusals.specs.Stated.{Judges};

use arrays::TreeArrays;
use input::{MOST_ROWS, Refusal, WHOLE};
use tables::RowRefusals;

// A table that has as many rows as it may: what refuses each row, each row whose children have too much together, which is 10, and the tree as
// the rows make it.
#[derive(Clone, Copy)]
pub struct Judged {
    pub refusals: RowRefusals,
    pub sums: RowRefusals,
    pub tree: TreeArrays,
}

// Judges a table, whatever is lent; or says what refuses it before its rows are looked at.
pub fn judge(
    identifiers: &[u32],
    parent_identifiers: &[u32],
    shares: &[u32],
) -> Result<Judged, Refusal>
    ensures { Judges (table_of identifiers.now parent_identifiers.now shares.now) result }
{
    tables::rows_refused(identifiers.len(), parent_identifiers.len(), shares.len())?;
    let rows = tables::read_rows(identifiers, parent_identifiers, shares);
    let sums = sums_refused(&rows.tree, identifiers.len());
    Ok(Judged {
        refusals: rows.refusals,
        sums,
        tree: rows.tree,
    })
}

// Of each row 10 where its children have too much together.
fn sums_refused(tree: &TreeArrays, rows: usize) -> RowRefusals
    requires { rows ≤ most_rows }
    ensures { (t : Tree) → t.parents ≡ tree.now.parents → t.shares ≡ tree.now.shares
        → result ≡ verdicts (all.sum_refusal t rows) rows }
{
    let mut sums = [None; MOST_ROWS];
    for p in 0..rows {
        sums[p] = sum_refused(children_share(tree, p, rows), p);
    }
    sums
}

// What refuses such a sum of the children of row p.
fn sum_refused(sum: usize, p: usize) -> Option<Refusal>
    requires { p < most_rows }
    ensures { result ≡ verdict (all.sum_refused sum p) }
{
    if (WHOLE as usize) < sum {
        Some(tables::refusal(10, p, 0))
    } else {
        None
    }
}

// The shares of row p's children, added up.
fn children_share(tree: &TreeArrays, p: usize, rows: usize) -> usize
    requires { rows ≤ most_rows }
    ensures { (t : Tree) → t.parents ≡ tree.now.parents → t.shares ≡ tree.now.shares
        → result ≡ all.children_share t p rows }
{
    let mut sum = 0;
    for r in 0..rows {
        sum += child_share(tree, p, r);
    }
    sum
}

// The share of row r if it is a child of a row above it, row p.
fn child_share(tree: &TreeArrays, p: usize, r: usize) -> usize
    requires { r < most_rows }
    ensures { (result < 2 ^ 32) × ((t : Tree) → t.parents ≡ tree.now.parents → t.shares ≡ tree.now.shares
        → result ≡ all.child_share t p r) }
{
    if p < r {
        return tables::child_share(tree, p, r);
    }
    0
}
