// promise TABLE LARGEST [OWN [PACKETS]]: reads a class table and prints, for each sending class, the sheet of its share: step by step up
// the tree, what the line can finish at most while the class finishes OWN bytes and no class on its way more than PACKETS packets, in a
// day whose largest packet has LARGEST bytes. To standard error it says what cannot be read or written, or what a refusal names and how
// to mend it.
#![tactic(auto)]

mod asked;
mod printing;

use asked::Numbers;
use files::{Stopped, Table, argument_count, begin_refusal, complain, print_answer, say};
use input::{MOST_EVENTS, Refusal};
use output::Page;
use printing::Sheet;
use sentences::{Columns, SENTENCE_BYTES, table_sentence};
use text::Field;

fn main(rt: HostRuntime) {
    files::end_with(called(&rt));
}

// Looks at the call and goes on.
fn called(rt: &HostRuntime) -> Result<(), Stopped> {
    let count = argument_count(rt);
    if count < 3 || 5 < count {
        return Err(complain(
            b"cannot read: give a class table and the largest packet, promise TABLE LARGEST [OWN [PACKETS]]\n",
        ));
    }
    let largest = argument(rt, 2);
    let own = if 3 < count { argument(rt, 3) } else { largest };
    let packets = if 4 < count {
        argument(rt, 4)
    } else {
        Field::Number(MOST_EVENTS as u32)
    };
    match asked::from_fields(largest, own, packets) {
        Ok(numbers) => with_numbers(rt, numbers),
        Err(fault) => Err(fault.complain()),
    }
}

// An argument as a number. The longest that the system passes has 131,071 bytes.
fn argument(rt: &HostRuntime, place: usize) -> Field {
    let mut word = [0u8; 131072];
    let length = files::argument(rt, place, &mut word);
    text::number(&word[..length])
}

// Reads the table, checks it, and prints the sheet or why there is none.
fn with_numbers(rt: &HostRuntime, asked: Numbers) -> Result<(), Stopped> {
    let table = Table::load(rt, 1)?;
    let columns = table.columns();
    let Columns {
        identifiers,
        parents,
        shares,
    } = columns;
    let read = tables::read_table(identifiers, parents, shares);
    match &read {
        Ok(reading) => {
            let sheet = Sheet {
                asked,
                identifiers,
                parents: &reading.tree.parents,
                depths: &reading.tree.depths,
                shares: &reading.tree.shares,
            };
            sheet.print(rt, &reading.senders)
        }
        Err(refusal) => refused(rt, *refusal, table.rows, columns),
    }
}

// The answer of a run with this table and, once that is written, the refusal as a sentence to standard error. The count of rows is that
// of the file, of which the columns may have less.
fn refused(rt: &HostRuntime, refusal: Refusal, rows: u64, table: Columns) -> Result<(), Stopped> {
    print_answer(rt, Err(refusal))?;
    let mut page: Page<SENTENCE_BYTES> = Page::blank();
    begin_refusal(rt, &mut page, refusal.number, 1);
    table_sentence(&mut page, refusal, rows, table);
    say(&page);
    Err(Stopped::Refused)
}
