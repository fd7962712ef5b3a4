// Reading a class table: what refuses it, row by row, and the tree that it is. It writes nothing that is lent. `read_table` and
// `row_of` are for all; what else is public is for the crates `checks` and `refusals` alone.
#![tactic(auto)]

ghost use Rattle.std.specs.Prelude.{ℕ, ◌≡◌, cond, ◌≤◌, ◌<◌, ◌^◌, length, get_or, None};
ghost use Rattle.input.specs.Limits.{most_rows};
ghost use Rattle.input.specs.Classes.{Tree, Table, earlier, read, tree_of, share, child, has_child, sends, children_share};
ghost use Rattle.input.specs.Refusals.{first_below, rows_refused, root_refused, class_refused, shares_refused, table_refused};
ghost use Rattle.input.specs.Lent.{table_of};
ghost use Rattle.tables.specs.Sized.{Sized};
ghost use Rattle.tables.specs.Judged.{Judged, verdict};
ghost use Rattle.tables.specs.Answers.{refusal_of, row_read, rows_read, senders_below, accepting};
ghost use Rattle.tables.specs.Stated.{Reads, Finds};

use arrays::TreeArrays;
use input::{LEAST_ROWS, MOST_DEPTH, MOST_IDENTIFIER, MOST_ROWS, Refusal, RowMarks, WHOLE};
use words::wide;

// What refuses each row, where anything does.
pub type RowRefusals = [Option<Refusal>; MOST_ROWS];

// A row of a table as it is read: what refuses it, its parent's row, its depth.
#[derive(Clone, Copy)]
struct Row {
    refusal: Option<Refusal>,
    parent: u32,
    depth: u32,
}

// All rows as they are read: what refuses each of them, and the tree that they make.
#[derive(Clone, Copy)]
pub struct Rows {
    pub refusals: RowRefusals,
    pub tree: TreeArrays,
}

// A table that nothing refuses, as it was read, with the rows that are sending classes.
#[derive(Clone, Copy)]
pub struct Reading {
    pub tree: TreeArrays,
    pub senders: RowMarks,
}

pub fn refusal(number: u32, place: usize, second: usize) -> Refusal
    requires { (place < 2 ^ 32) × (second < 2 ^ 32) }
    ensures { result ≡ refusal_of number place second }
{
    Refusal {
        number,
        place: place as u32,
        second: second as u32,
    }
}

// The row of the class with this identifier.
pub fn row_of(identifiers: &[u32], class: u32) -> Option<usize>
    ensures { Finds identifiers.now class result }
{
    for (r, identifier) in identifiers.iter().enumerate() {
        if *identifier == class {
            return Some(r);
        }
    }
    None
}

// 1: the row slices, of so many words, are unequal, or the rows too few or too many.
pub fn rows_refused(rows: usize, parents: usize, shares: usize) -> Result<(), Refusal>
    ensures { (table : Table) → length table.identifiers ≡ rows → length table.parent_identifiers ≡ parents → length table.shares ≡ shares →
        Judged (rows_refused table) tt result }
{
    if parents != rows {
        return Err(refusal(1, 0, 0));
    }
    if shares != rows {
        return Err(refusal(1, 0, 0));
    }
    if rows < LEAST_ROWS {
        return Err(refusal(1, 0, 0));
    }
    if MOST_ROWS < rows {
        return Err(refusal(1, 0, 0));
    }
    Ok(())
}

// Row 0: 4, 15 and 6.
fn root_refused(
    identifiers: &[u32],
    parent_identifiers: &[u32],
    shares: &[u32],
) -> Result<(), Refusal>
    requires { Sized (table_of identifiers.now parent_identifiers.now shares.now) }
    ensures { Judged (root_refused (table_of identifiers.now parent_identifiers.now shares.now)) tt result }
{
    if identifiers[0] == 0 {
        return Err(refusal(4, 0, 0));
    }
    if MOST_IDENTIFIER < identifiers[0] {
        return Err(refusal(15, 0, 0));
    }
    if parent_identifiers[0] != 0 {
        return Err(refusal(6, 0, 0));
    }
    if shares[0] != 0 {
        return Err(refusal(6, 0, 0));
    }
    Ok(())
}

// Any other row, by its identifier, the first row that has that identifier, its parent's row, its share and its depth: 4, 15, 5, 7, 8, 9.
fn class_refused(
    r: usize,
    identifier: u32,
    earlier: usize,
    parent: usize,
    share: u32,
    depth: u32,
) -> Result<(), Refusal>
    requires { r < most_rows }
    ensures { Judged (class_refused r identifier earlier parent share depth) tt result }
{
    if identifier == 0 {
        return Err(refusal(4, r, 0));
    }
    if MOST_IDENTIFIER < identifier {
        return Err(refusal(15, r, 0));
    }
    if earlier < r {
        return Err(refusal(5, r, earlier));
    }
    if parent == r {
        return Err(refusal(7, r, 0));
    }
    if !shares::allowed(share) {
        return Err(refusal(8, r, 0));
    }
    if MOST_DEPTH < depth {
        return Err(refusal(9, r, 0));
    }
    Ok(())
}

// The row before row r that has this identifier; r where there is none, as in the definitions (`Classes: earlier`).
fn earlier(identifiers: &[u32], r: usize, identifier: u32) -> usize
    requires { r ≤ length identifiers.now }
    ensures { ((table : Table) → table.identifiers ≡ identifiers.now → result ≡ earlier table r identifier) × (result ≤ r) }
{
    row_of(&identifiers[..r], identifier).unwrap_or(r)
}

// Row r, read after the rows before it, whose depths are known.
fn read_row(
    identifiers: &[u32],
    parent_identifiers: &[u32],
    shares: &[u32],
    tree: &TreeArrays,
    r: usize,
) -> Row
    requires { Sized (table_of identifiers.now parent_identifiers.now shares.now) × (r < length identifiers.now)
        × (tree.now.depths ≡ (read (table_of identifiers.now parent_identifiers.now shares.now) r).depths) }
    ensures { result ≡ row_read (table_of identifiers.now parent_identifiers.now shares.now) r }
{
    let parent = earlier(identifiers, r, parent_identifiers[r]);
    if r == 0 {
        return Row {
            refusal: root_refused(identifiers, parent_identifiers, shares).err(),
            parent: parent as u32,
            depth: 0,
        };
    }
    let depth = tree.depths[parent] + 1;
    let identifier = identifiers[r];
    let other = earlier(identifiers, r, identifier);
    Row {
        refusal: class_refused(r, identifier, other, parent, shares[r], depth).err(),
        parent: parent as u32,
        depth,
    }
}

// All rows, one after the other.
pub fn read_rows(identifiers: &[u32], parent_identifiers: &[u32], shares: &[u32]) -> Rows
    requires { Sized (table_of identifiers.now parent_identifiers.now shares.now) }
    ensures { result ≡ rows_read (table_of identifiers.now parent_identifiers.now shares.now) (length identifiers.now) }
{
    let mut refusals = [None; MOST_ROWS];
    let mut tree = TreeArrays::zeros();
    for r in 0..identifiers.len() {
        let row = read_row(identifiers, parent_identifiers, shares, &tree, r);
        refusals[r] = row.refusal;
        tree.parents[r] = row.parent;
        tree.depths[r] = row.depth;
        tree.shares[r] = shares[r];
    }
    Rows { refusals, tree }
}

// The first that refuses a row.
fn first_refused(refusals: &RowRefusals, rows: usize) -> Result<(), Refusal>
    requires { rows ≤ most_rows }
    ensures { (at : ℕ → Refusal) → ((r : ℕ) → r < rows → get_or refusals.now r None ≡ verdict (at r))
        → Judged (first_below at rows) tt result }
{
    for r in 0..rows {
        if let Some(refusal) = refusals[r] {
            return Err(refusal);
        }
    }
    Ok(())
}

// Whether row r is a child of row p.
fn child(tree: &TreeArrays, p: usize, r: usize) -> bool
    requires { r < most_rows }
    ensures { (t : Tree) → t.parents ≡ tree.now.parents → result ≡ child t p r }
{
    if r == 0 {
        return false;
    }
    wide(tree.parents[r]) == p
}

// The share of row r if it is a child of row p.
pub fn child_share(tree: &TreeArrays, p: usize, r: usize) -> usize
    requires { r < most_rows }
    ensures { (result < 2 ^ 32) × ((t : Tree) → t.parents ≡ tree.now.parents → t.shares ≡ tree.now.shares
        → result ≡ cond (child t p r) (share t r) 0) }
{
    if child(tree, p, r) {
        return wide(tree.shares[r]);
    }
    0
}

// The shares of row p's children, added up.
fn children_share(tree: &TreeArrays, p: usize, rows: usize) -> usize
    requires { rows ≤ most_rows }
    ensures { (t : Tree) → t.parents ≡ tree.now.parents → t.shares ≡ tree.now.shares
        → result ≡ children_share t p rows }
{
    let mut sum = 0;
    for r in 0..rows {
        sum += child_share(tree, p, r);
    }
    sum
}

// 10, at the lowest parent row.
fn shares_refused(tree: &TreeArrays, rows: usize) -> Result<(), Refusal>
    requires { rows ≤ most_rows }
    ensures { (table : Table) → length table.identifiers ≡ rows
        → (tree_of table).parents ≡ tree.now.parents → (tree_of table).shares ≡ tree.now.shares
        → Judged (first_below (shares_refused table) rows) tt result }
{
    for p in 0..rows {
        let sum = children_share(tree, p, rows);
        if (WHOLE as usize) < sum {
            return Err(refusal(10, p, 0));
        }
    }
    Ok(())
}

// Whether row p has a child.
fn has_child(tree: &TreeArrays, p: usize, rows: usize) -> bool
    requires { rows ≤ most_rows }
    ensures { (t : Tree) → t.parents ≡ tree.now.parents → result ≡ has_child t p rows }
{
    for r in 0..rows {
        if child(tree, p, r) {
            return true;
        }
    }
    false
}

// Whether row r is a sending class.
fn sends(tree: &TreeArrays, r: usize, rows: usize) -> bool
    requires { rows ≤ most_rows }
    ensures { (t : Tree) → t.parents ≡ tree.now.parents → t.rows ≡ rows → result ≡ sends t r }
{
    if r == 0 {
        return false;
    }
    !has_child(tree, r, rows)
}

// Which rows are sending classes.
fn senders_of(tree: &TreeArrays, rows: usize) -> RowMarks
    requires { rows ≤ most_rows }
    ensures { (t : Tree) → t.parents ≡ tree.now.parents → t.rows ≡ rows → result ≡ senders_below t rows }
{
    let mut senders = [false; MOST_ROWS];
    for r in 0..rows {
        senders[r] = sends(tree, r, rows);
    }
    senders
}

// A table whose slices have one length that is not refused.
pub fn read_sized(
    identifiers: &[u32],
    parent_identifiers: &[u32],
    shares: &[u32],
) -> Result<Reading, Refusal>
    requires { Sized (table_of identifiers.now parent_identifiers.now shares.now) }
    ensures { Judged (table_refused (table_of identifiers.now parent_identifiers.now shares.now))
        (accepting (tree_of (table_of identifiers.now parent_identifiers.now shares.now))) result }
{
    let rows = read_rows(identifiers, parent_identifiers, shares);
    first_refused(&rows.refusals, identifiers.len())?;
    shares_refused(&rows.tree, identifiers.len())?;
    let senders = senders_of(&rows.tree, identifiers.len());
    Ok(Reading {
        tree: rows.tree,
        senders,
    })
}

// The check of a class table by itself.
pub fn read_table(
    identifiers: &[u32],
    parent_identifiers: &[u32],
    shares: &[u32],
) -> Result<Reading, Refusal>
    ensures { Reads (table_of identifiers.now parent_identifiers.now shares.now) result }
{
    rows_refused(identifiers.len(), parent_identifiers.len(), shares.len())?;
    read_sized(identifiers, parent_identifiers, shares)
}
