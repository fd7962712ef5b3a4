// live fresh TABLE STATE: makes the state of a class table.
use crate::answers::print_answer;
use crate::refusals::say_table;
use files::{Stopped, first, load_text, say_fault};
use live_rules::STATE_WORDS;
use sentences::{Columns, HELD_BYTES, HELD_ROWS};
use state_files::store_state;

// Which arguments name the table and the state.
pub const TABLE: usize = 2;

pub const STATE: usize = 3;

// Reads the rows and goes on.
pub fn fresh(rt: &HostRuntime) -> Result<(), Stopped> {
    let mut text = [0u8; HELD_BYTES];
    let size = load_text(rt, TABLE, &mut text)?;
    let mut identifiers = [0u32; HELD_ROWS];
    let mut parents = [0u32; HELD_ROWS];
    let mut shares = [0u32; HELD_ROWS];
    match csv_text::read_rows(&text, size, &mut identifiers, &mut parents, &mut shares) {
        Ok(counted) => with_table(
            rt,
            counted.rows,
            Columns {
                identifiers: first(&identifiers, counted.rows),
                parents: first(&parents, counted.rows),
                shares: first(&shares, counted.rows),
            },
        ),
        Err(fault) => {
            print_answer(rt, Err(fault))?;
            say_fault(rt, TABLE, fault, &text, size);
            Err(Stopped::Refused)
        }
    }
}

// Makes the state and stores it. The count of rows is that of the file, of which the columns may have less.
fn with_table(rt: &HostRuntime, rows: u64, table: Columns) -> Result<(), Stopped> {
    let mut state = [0u64; STATE_WORDS];
    let made = live_box::fresh(table.identifiers, table.parents, table.shares, &mut state);
    if let Err(refusal) = made {
        print_answer(rt, Err(refusal))?;
        say_table(rt, refusal, rows, table);
        return Err(Stopped::Refused);
    }
    store_state(rt, STATE, &state)?;
    print_answer(rt, Ok(None))
}
