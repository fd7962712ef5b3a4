// table TABLE: reads a class table and gives all that is refused of it, row by row, and not the first alone; or draws its tree. To standard
// error it says what cannot be read or written, or what each refusal names and how to mend it.
#![tactic(auto)]

mod refused;

use arrays::TreeArrays;
use files::{Stopped, Table, argument_count, complain, end_with};
use input::MOST_ROWS;
use output::Page;
use refused::{give, nothing};
use sentences::Columns;

// Room for the tree: no line has more than 56 bytes.
const TREE_BYTES: usize = 64 * (MOST_ROWS + 1);

fn main(rt: HostRuntime) {
    end_with(called(&rt));
}

// Looks at the call and goes on.
fn called(rt: &HostRuntime) -> Result<(), Stopped> {
    if argument_count(rt) != 2 {
        return Err(complain(b"cannot read: give a class table, table TABLE\n"));
    }
    let table = Table::load(rt, 1)?;
    give_or_draw(rt, table.rows, table.columns())
}

// Gives all that is refused: of the table before its rows are looked at, or of the rows and of the sums. Where that is nothing, draws the
// tree. The count of rows is that of the file, of which the columns may have less.
fn give_or_draw(rt: &HostRuntime, rows: u64, table: Columns) -> Result<(), Stopped> {
    let judged = refusals::judge(table.identifiers, table.parents, table.shares);
    match &judged {
        Err(refusal) => give(rt, &[Some(*refusal)], &[], rows, table),
        Ok(judged) if nothing(&judged.refusals) && nothing(&judged.sums) => {
            draw(rt, table.identifiers, &judged.tree)
        }
        Ok(judged) => give(rt, &judged.refusals, &judged.sums, rows, table),
    }
}

fn draw(rt: &HostRuntime, identifiers: &[u32], tree: &TreeArrays) -> Result<(), Stopped> {
    let mut page: Page<TREE_BYTES> = Page::blank();
    drawing::put_tree(
        &mut page,
        identifiers,
        &tree.parents,
        &tree.depths,
        &tree.shares,
        rows_of(identifiers),
    );
    files::print(rt, &page)
}

// How many rows an accepted table has.
fn rows_of(identifiers: &[u32]) -> u32 {
    identifiers.len().min(MOST_ROWS) as u32
}
