// capture CAPTURE TABLE FIRST SECOND THIRD RATE: reads a capture and a class table, replays the capture's packets over a line that carries
// RATE bytes a second, each for one of three classes by its code point, and prints the answer and, for each packet, when it arrived, went
// on the line and was finished; to standard error it says what cannot be read or written, or what a refusal names and how to mend it.
#![tactic(auto)]

mod asked;
mod packets;
mod printing;
mod reading;
mod refusals;

ghost use Rattle.std.specs.Prelude.{◌≡◌, ◌≤◌, length};
ghost use Rattle.input.specs.Limits.{most_events};
ghost use Rattle.pcap.specs.Lists.{Stamped};

use asked::argument;
use captures::MOST_RECORDS;
use files::{Stopped, Table, argument_count, complain, input_twice, load_capture};
use heaps::Heaps;
use input::{MOST_EVENTS, REPORT_WORDS, Refusal};
use pcap::Sorting;
use reading::read_records;
use sentences::{Columns, HELD_ROWS};

// The bytes of a capture that are held.
const HELD_CAPTURE: usize = 4194304;

// What is replayed: a capture, the classes for its packets, the bytes that the line carries in a second, and a table, of whose file's rows
// the columns may have less.
#[derive(Clone, Copy)]
pub struct Given<'a> {
    pub capture: &'a [u8],
    pub sorting: Sorting,
    pub rate: u32,
    pub rows: u64,
    pub table: Columns<'a>,
}

fn main(rt: HostRuntime) {
    files::end_with(called(&rt));
}

// Looks at the call and goes on.
fn called(rt: &HostRuntime) -> Result<(), Stopped> {
    if argument_count(rt) != 7 {
        return Err(complain(
            b"cannot read: give a capture, a class table, three classes and a rate, capture CAPTURE TABLE FIRST SECOND THIRD RATE\n",
        ));
    }
    if input_twice(rt) {
        return Err(files::twice());
    }
    let sorting = Sorting {
        first: argument(rt, 3, b"FIRST")?,
        second: argument(rt, 4, b"SECOND")?,
        third: argument(rt, 5, b"THIRD")?,
    };
    let rate = argument(rt, 6, b"RATE")?;
    with_numbers(rt, sorting, rate)
}

// Reads the capture and the table, and goes on.
fn with_numbers(rt: &HostRuntime, sorting: Sorting, rate: u32) -> Result<(), Stopped> {
    let mut capture = blank();
    let size = load_capture(rt, 1, &mut capture)?;
    let table = Table::load(rt, 2)?;
    with_given(
        rt,
        Given {
            capture: &capture[..size],
            sorting,
            rate,
            rows: table.rows,
            table: table.columns(),
        },
    )
}

// Room for a capture. Its length is all that lending it needs, and a proof that looks at more would count all its bytes.
fn blank() -> [u8; HELD_CAPTURE]
    ensures { 4194304 ≡ length result }
{
    [0; HELD_CAPTURE]
}

// Reads the records and goes on. Their classes and lengths stand where the list is put, and stay there if it is refused.
fn with_given(rt: &HostRuntime, given: Given) -> Result<(), Stopped> {
    let mut stamps = [0u64; MOST_RECORDS];
    let mut classes = [0u32; MOST_EVENTS];
    let mut lengths = [0u32; MOST_EVENTS];
    let count = read_records(
        given.capture,
        given.sorting,
        given.rate,
        &mut stamps,
        &mut classes,
        &mut lengths,
    );
    replay(rt, given, &stamps[..count], &mut classes, &mut lengths)
}

// Replays the packets, and prints what came of it, done or refused.
fn replay(
    rt: &HostRuntime,
    given: Given,
    stamps: &[u64],
    classes: &mut [u32],
    lengths: &mut [u32],
) -> Result<(), Stopped>
    requires { Stamped stamps.now × (length classes.old ≤ most_events) }
{
    let mut order = [0u32; MOST_EVENTS];
    match run(given, classes, lengths, &mut order) {
        Ok(count) => printing::print(rt, count, given.rate, stamps, classes, lengths, &order),
        Err(refusal) => refusals::tell(rt, refusal, given, classes, lengths),
    }
}

// The run, whose report and lags are not printed.
fn run(
    given: Given,
    classes: &mut [u32],
    lengths: &mut [u32],
    order: &mut [u32],
) -> Result<u32, Refusal> {
    let mut report = [0u64; REPORT_WORDS * HELD_ROWS];
    let mut lags = [0i64; HELD_ROWS];
    let mut working = [0u32; MOST_EVENTS];
    captures::replay::<Heaps>(
        given.capture,
        given.sorting,
        given.rate,
        given.table.identifiers,
        given.table.parents,
        given.table.shares,
        classes,
        lengths,
        order,
        &mut report,
        &mut lags,
        &mut working,
    )
}
