// Reading a class table's file into its rows.
ghost use Rattle.input.specs.Lent.{table_of};
ghost use Rattle.std.specs.Prelude.{◌≡◌, IfOk, Ok, take};
ghost use Rattle.files.specs.Tables.{LoadsTable, no_columns};

use crate::Stopped;
use crate::ending::begin_refusal;
use crate::handing::{print_answer, say};
use crate::reading::first;
use crate::whole::load_text;
use input::Refusal;
use output::Page;
use sentences::{Columns, HELD_BYTES, HELD_ROWS, SENTENCE_BYTES};
use std::rt::{Env, Files};

// A table that was read: how many rows its file has, and the first of these, as many as there is room for.
#[derive(Drop)]
pub struct Table {
    pub rows: u64,
    identifiers: [u32; HELD_ROWS],
    parents: [u32; HELD_ROWS],
    shares: [u32; HELD_ROWS],
}

impl Table {
    // Reads the table that an argument names, as `load_table` does.
    pub fn load(rt: &(impl Env + Files + Input + Print), argument: usize) -> Result<Table, Stopped>
        ensures { IfOk result (λ t. LoadsTable no_columns (table_of t.identifiers t.parents t.shares) (Ok t.rows)) }
    {
        let mut table = Table {
            rows: 0,
            identifiers: [0; HELD_ROWS],
            parents: [0; HELD_ROWS],
            shares: [0; HELD_ROWS],
        };
        table.rows = load_table(
            rt,
            argument,
            &mut table.identifiers,
            &mut table.parents,
            &mut table.shares,
        )?;
        Ok(table)
    }

    pub fn columns(&self) -> Columns<'_>
        ensures identifiers { result.identifiers.now ≡ take self.now.rows self.now.identifiers }
        ensures parents { result.parents.now ≡ take self.now.rows self.now.parents }
        ensures shares { result.shares.now ≡ take self.now.rows self.now.shares }
    {
        Columns {
            identifiers: first(&self.identifiers, self.rows),
            parents: first(&self.parents, self.rows),
            shares: first(&self.shares, self.rows),
        }
    }
}

// Reads the table that an argument names, and answers how many rows it has. Of a text with a fault it prints the answer and, once that
// is written, says to standard error what to mend. Where the slices have no room for all rows these are counted, and none is kept.
pub fn load_table(
    rt: &(impl Env + Files + Input + Print),
    argument: usize,
    identifiers: &mut [u32],
    parents: &mut [u32],
    shares: &mut [u32],
) -> Result<u64, Stopped>
    ensures { LoadsTable (table_of identifiers.old parents.old shares.old)
        (table_of identifiers.new parents.new shares.new) result }
{
    let mut text = [0u8; HELD_BYTES];
    let size = load_text(rt, argument, &mut text)?;
    read_held(rt, argument, &text, size, identifiers, parents, shares)
}

// The rows of a text of so many bytes, of which these were read from the file that an argument names.
#[tactic(auto, unfolding(crate::specs::Tables::loaded))]
fn read_held(
    rt: &(impl Env + Print),
    argument: usize,
    text: &[u8],
    size: usize,
    identifiers: &mut [u32],
    parents: &mut [u32],
    shares: &mut [u32],
) -> Result<u64, Stopped>
    ensures { LoadsTable (table_of identifiers.old parents.old shares.old)
        (table_of identifiers.new parents.new shares.new) result }
{
    match csv_text::read_rows(text, size, identifiers, parents, shares) {
        Ok(counted) => Ok(counted.rows),
        Err(fault) => Err(tell(rt, argument, fault, text, size)),
    }
}

// The fault of such a text.
fn tell(
    rt: &(impl Env + Print),
    argument: usize,
    fault: Refusal,
    text: &[u8],
    size: usize,
) -> Stopped {
    if let Err(stopped) = print_answer(rt, Err(fault)) {
        return stopped;
    }
    say_fault(rt, argument, fault, text, size);
    Stopped::Refused
}

// Says what to mend, to standard error.
pub fn say_fault(rt: &impl Env, argument: usize, fault: Refusal, text: &[u8], size: usize) {
    let mut page: Page<SENTENCE_BYTES> = Page::blank();
    begin_refusal(rt, &mut page, fault.number, argument);
    sentences::fault_sentence(
        &mut page,
        fault.number,
        fault.place,
        first(text, size as u64),
    );
    say(&page);
}
