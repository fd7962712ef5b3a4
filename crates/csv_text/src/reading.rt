// Reading a class table's text into lent slices. A refusal writes nothing.
ghost use Rattle.std.specs.Prelude.{◌≡◌, ◌≢◌, ◌≤◌, ⊤, length, IfErr};
ghost use Rattle.input.specs.Lent.{table_of};
ghost use Rattle.rules.specs.Outcome.{over};
ghost use Rattle.input.specs.Limits.{most_rows};
ghost use Rattle.input.specs.Classes.{Table};
ghost use Rattle.forms.specs.Outcomes.{RowsRead, TableRead, rows_left_of, table_left_of, answered, rows_said, rows_found, table_over, fits, count_refused};
ghost use Rattle.csv_text.specs.Kept.{Copyable, first_rows, unfit};
ghost use Rattle.tables.specs.Judged.{Judged};

use crate::scans::{fill, rows_of, scan_refused, scan_text};
use forms::Counted;
use input::{LEAST_ROWS, MOST_ROWS, Refusal};

// The rows of a text of so many bytes, whatever numbers they hold: 40, then 41 to 47.
pub fn read_rows(
    text: &[u8],
    size: usize,
    identifiers: &mut [u32],
    parents: &mut [u32],
    shares: &mut [u32],
) -> Result<Counted, Refusal>
    ensures numbered { IfErr result (λ refusal. refusal.number ≢ 0) }
    ensures read { RowsRead text.now size (table_of identifiers.old parents.old shares.old)
        (rows_left_of (rows_said result) (table_of identifiers.new parents.new shares.new)) }
{
    if text.len() < size {
        return Err(tables::refusal(40, 0, 0));
    }
    let bytes = &text[..size];
    let scan = scan_text(bytes);
    scan_refused(scan)?;
    let rows = rows_of(scan.lines);
    let kept = fits(rows, identifiers.len(), parents.len(), shares.len());
    if kept {
        fill(bytes, identifiers, parents, shares);
    }
    Ok(Counted { rows, kept })
}

// Whether slices of so many words have room for these rows.
#[tactic(auto, unfolding(forms::specs::Outcomes::fits))]
fn fits(rows: u64, identifiers: usize, parents: usize, shares: usize) -> bool
    ensures { (lent : Table) → length lent.identifiers ≡ identifiers → length lent.parent_identifiers ≡ parents
        → length lent.shares ≡ shares → result ≡ fits rows lent }
{
    rows <= identifiers as u64 && rows <= parents as u64 && rows <= shares as u64
}

// A class table of so many bytes: 40, then 41 to 47, 1, 3, and the table's own. The count is that of its rows.
pub fn read_table(
    text: &[u8],
    size: usize,
    identifiers: &mut [u32],
    parents: &mut [u32],
    shares: &mut [u32],
) -> Result<u32, Refusal>
    ensures numbered { IfErr result (λ refusal. refusal.number ≢ 0) }
    ensures read { TableRead text.now size (table_of identifiers.old parents.old shares.old)
        (table_left_of (answered result) (table_of identifiers.new parents.new shares.new)) }
{
    let mut row_identifiers = [0u32; MOST_ROWS];
    let mut row_parents = [0u32; MOST_ROWS];
    let mut row_shares = [0u32; MOST_ROWS];
    let read = read_rows(
        text,
        size,
        &mut row_identifiers,
        &mut row_parents,
        &mut row_shares,
    )?;
    let room = fits(read.rows, identifiers.len(), parents.len(), shares.len());
    unfit(read, &row_identifiers, &row_parents, &row_shares, room)?;
    copy_rows(
        read.rows as usize,
        &row_identifiers,
        &row_parents,
        &row_shares,
        identifiers,
        parents,
        shares,
    );
    Ok(read.rows as u32)
}

// What refuses a table whose rows were read into these words: 1, 3 where the lent slices have no room, and its own.
fn unfit(
    read: Counted,
    row_identifiers: &[u32],
    row_parents: &[u32],
    row_shares: &[u32],
    room: bool,
) -> Result<(), Refusal>
    requires { (most_rows ≤ length row_identifiers.now) × (most_rows ≤ length row_parents.now) × (most_rows ≤ length row_shares.now) }
    ensures { Judged (unfit (rows_found read.rows read.kept) (table_of row_identifiers.now row_parents.now row_shares.now) room) tt result }
{
    let rows = read.rows as usize;
    count_refused(rows)?;
    if !room {
        return Err(tables::refusal(3, 0, 0));
    }
    let identifiers = &row_identifiers[..rows];
    let parents = &row_parents[..rows];
    let shares = &row_shares[..rows];
    tables::read_table(identifiers, parents, shares)?;
    Ok(())
}

// 1 for so many rows.
#[tactic(auto, unfolding(forms::specs::Outcomes::count_refused, input::specs::Refusals::given))]
pub fn count_refused(rows: usize) -> Result<(), Refusal>
    ensures { Judged (count_refused rows) tt result }
{
    if rows < LEAST_ROWS || MOST_ROWS < rows {
        return Err(tables::refusal(1, 0, 0));
    }
    Ok(())
}

// The first rows of these words, over the first of slices that have as many.
#[tactic(auto, unfolding(forms::specs::Outcomes::table_over, crate::specs::Kept::first_rows))]
fn copy_rows(
    rows: usize,
    row_identifiers: &[u32],
    row_parents: &[u32],
    row_shares: &[u32],
    identifiers: &mut [u32],
    parents: &mut [u32],
    shares: &mut [u32],
)
    requires { Copyable rows (table_of row_identifiers.now row_parents.now row_shares.now) (table_of identifiers.old parents.old shares.old) }
    ensures { table_of identifiers.new parents.new shares.new
        ≡ table_over (first_rows rows (table_of row_identifiers.now row_parents.now row_shares.now))
        (table_of identifiers.old parents.old shares.old) }
{
    copy(&row_identifiers[..rows], identifiers);
    copy(&row_parents[..rows], parents);
    copy(&row_shares[..rows], shares);
}

// All of these, over the first of a slice that has as many.
#[tactic(auto, unfolding(rules::specs::Outcome::over))]
pub fn copy<T: Copy>(items: &[T], lent: &mut [T])
    requires { length items.now ≤ length lent.old }
    ensures { lent.new ≡ over items.now lent.old }
{
    lent[..items.len()].copy_from_slice(items);
}
