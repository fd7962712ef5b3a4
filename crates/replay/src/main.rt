// replay TABLE EVENTS: reads a class table and a list of events, replays them, and prints the answer, the order and the report with
// the lags; to standard error it says what cannot be read or written, or what a refusal names and how to mend it.
#![tactic(auto)]

ghost use Rattle.std.specs.Prelude.{◌≡◌, length};

use files::{
    NO_FILE, Stopped, Table, argument_count, begin_refusal, complain, end_with, first, input_twice,
    load, say,
};
use heaps::Heaps;
use input::{MOST_EVENTS, REPORT_WORDS, Refusal};
use output::Page;
use sentences::{Columns, HELD_ROWS, Lists, SENTENCE_BYTES};

// One more than a run takes, so that it refuses a longer list.
const HELD_EVENTS: usize = MOST_EVENTS + 1;

// Room for the text of any run of so many events and rows (`Room: run_room` of the crate `forms`).
const RUN_BYTES: usize = 1480252;

fn main(rt: HostRuntime) {
    end_with(called(&rt));
}

// Looks at the call and goes on.
fn called(rt: &HostRuntime) -> Result<(), Stopped> {
    if argument_count(rt) != 3 {
        return Err(complain(
            b"cannot read: give a class table and an event list, replay TABLE EVENTS\n",
        ));
    }
    if input_twice(rt) {
        return Err(files::twice());
    }
    let table = Table::load(rt, 1)?;
    with_table(rt, table.rows, table.columns())
}

// Reads the events and goes on.
fn with_table(rt: &HostRuntime, rows: u64, table: Columns) -> Result<(), Stopped> {
    let mut classes = [0u32; HELD_EVENTS];
    let mut lengths = [0u32; HELD_EVENTS];
    let events = load(rt, 2, &mut classes, &mut lengths)?;
    let list = Lists {
        classes: first(&classes, events),
        lengths: first(&lengths, events),
    };
    replay(rt, rows, events, table, list)
}

// Runs the events, prints what came of it, and says what a refusal names. The counts are those of the files, of which the slices may have
// less.
fn replay(
    rt: &HostRuntime,
    rows: u64,
    events: u64,
    table: Columns,
    list: Lists,
) -> Result<(), Stopped> {
    let mut order = [0u32; MOST_EVENTS];
    let mut report = [0u64; REPORT_WORDS * HELD_ROWS];
    let mut lags = [0i64; HELD_ROWS];
    let mut working = [0u32; MOST_EVENTS];
    let answer = engine::run::<Heaps>(
        table.identifiers,
        table.parents,
        table.shares,
        list.classes,
        list.lengths,
        &mut order,
        &mut report,
        &mut lags,
        &mut working,
    );
    print(rt, answer, table.identifiers, &order, &report, &lags)?;
    if let Err(refusal) = answer {
        explain(rt, refusal, rows, events, table, list);
        return Err(Stopped::Refused);
    }
    Ok(())
}

// Prints the answer and, of a done run, the results.
fn print(
    rt: &HostRuntime,
    answer: Result<u32, Refusal>,
    identifiers: &[u32],
    order: &[u32],
    report: &[u64],
    lags: &[i64],
) -> Result<(), Stopped> {
    let mut page = blank();
    lines::put_run(&mut page, answer, identifiers, order, report, lags);
    files::print(rt, &page)
}

// A page with nothing on it, and room for any run.
fn blank() -> Page<RUN_BYTES>
    ensures { length result.bytes ≡ 1480252 }
{
    Page::blank()
}

// A refusal as a sentence, to standard error.
fn explain(
    rt: &HostRuntime,
    refusal: Refusal,
    rows: u64,
    events: u64,
    table: Columns,
    list: Lists,
) {
    let mut page: Page<SENTENCE_BYTES> = Page::blank();
    begin_refusal(rt, &mut page, refusal.number, file_of(refusal.number));
    sentences::sentence(&mut page, refusal, rows, events, table, list);
    say(&page);
}

// Which argument names the file that a refusal is in.
fn file_of(number: u32) -> usize {
    match number {
        2 | 11..=14 => 2,
        3 => NO_FILE,
        _ => 1,
    }
}
