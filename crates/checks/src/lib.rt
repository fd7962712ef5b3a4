// The checks of a whole input: refusals of the slices' lengths, of a class table and of an event list, and the row that each event is
// for. They write nothing that is lent.
#![tactic(auto)]

mod rows;

ghost use Rattle.std.specs.Prelude.{◌≡◌, Bool, ℕ, Option, ◌<◌, ◌≤◌, ◌^◌, IfSome};
ghost use Rattle.std.proofs.Math.ListN as lists;
ghost use Rattle.input.specs.declared.Event.TheVariants.{Arrival, Finish};
ghost use Rattle.input.specs.Limits.{most_rows, most_events};
ghost use Rattle.input.specs.Classes.{Table, Tree};
ghost use Rattle.input.specs.Events.{Events, count};
ghost use Rattle.input.specs.EventRows.{no_rows};
ghost use Rattle.input.specs.Refusals.{events_refused, room_refused, packet_refused};
ghost use Rattle.input.specs.Lent.{table_of, events_of};
ghost use Rattle.rules.specs.Promise.{one_arrival, one_finish};
ghost use Rattle.tables.specs.Judged.{Judged};
ghost use Rattle.checks.specs.Filed.{AllFiled};
ghost use Rattle.checks.specs.Counted.{room_in, SlicesOf, ChecksLengths, Known, Found, Meets, MeetsAll, filled, with_rows, Checks};

use input::{Event, EventRows, OnAirRows, Refusal, RowMarks};
pub use rows::filed;
use rows::row_of;
use tables::Reading;

// How many words each lent result slice has.
#[derive(Clone, Copy)]
pub struct ResultRoom {
    pub order: usize,
    pub report: usize,
    pub lags: usize,
    pub working: usize,
}

// A whole input that nothing refuses: the table as it was read, and for each event the row of its class, 0 for a finish, as in the
// definitions (`EventRows: row_for`): a byte for an event.
#[derive(Clone, Copy)]
pub struct Checked {
    pub reading: Reading,
    pub event_rows: EventRows,
}

// 2: the event slices, of so many words, are unequal, or there are too many events.
fn events_refused(events: usize, lengths: usize) -> Result<(), Refusal>
    ensures { (list : Events) → count list ≡ events → lists.length list.lengths ≡ lengths → Judged (events_refused list) tt result }
{
    if lengths != events {
        return Err(tables::refusal(2, 0, 0));
    }
    if input::MOST_EVENTS < events {
        return Err(tables::refusal(2, 0, 0));
    }
    Ok(())
}

// 3: a result slice is too short for so many rows and events.
fn room_refused(rows: usize, events: usize, room: ResultRoom) -> Result<(), Refusal>
    requires { rows < 2 ^ 61 }
    ensures { Judged (room_refused rows events (room_in room)) tt result }
{
    if room.order < events {
        return Err(tables::refusal(3, 0, 0));
    }
    if room.working < events {
        return Err(tables::refusal(3, 0, 0));
    }
    if room.report < input::REPORT_WORDS * rows {
        return Err(tables::refusal(3, 0, 0));
    }
    if room.lags < rows {
        return Err(tables::refusal(3, 0, 0));
    }
    Ok(())
}

// The check of the lengths, where the slices have so many words.
pub fn check_counts(
    rows: usize,
    parents: usize,
    shares: usize,
    events: usize,
    lengths: usize,
    room: ResultRoom,
) -> Result<(), Refusal>
    requires { rows < 2 ^ 61 }
    ensures { (table : Table) (list : Events) → SlicesOf table list rows parents shares events lengths →
        ChecksLengths table list (room_in room) result }
{
    tables::rows_refused(rows, parents, shares)?;
    events_refused(events, lengths)?;
    room_refused(rows, events, room)
}

// The check of the lengths: those of the lent slices of a table and of an event list, and those of the result slices.
pub fn check_lengths(
    identifiers: &[u32],
    parent_identifiers: &[u32],
    shares: &[u32],
    classes: &[u32],
    lengths: &[u32],
    room: ResultRoom,
) -> Result<(), Refusal>
    ensures { ChecksLengths (table_of identifiers.now parent_identifiers.now shares.now)
        (events_of classes.now lengths.now) (room_in room) result }
{
    check_counts(
        identifiers.len(),
        parent_identifiers.len(),
        shares.len(),
        classes.len(),
        lengths.len(),
        room,
    )
}

// 1 for an arrival.
fn one_arrival(event: Event) -> usize
    ensures { (result ≡ one_arrival event) × (result ≤ 1) }
{
    match event {
        Event::Arrival {
            class: _,
            length: _,
        } => 1,
        Event::Finish => 0,
    }
}

// 1 for a finish.
fn one_finish(event: Event) -> usize
    ensures { (result ≡ one_finish event) × (result ≤ 1) }
{
    match event {
        Event::Arrival {
            class: _,
            length: _,
        } => 0,
        Event::Finish => 1,
    }
}

// A packet for a class that is there: 12, 13.
fn packet_refused(i: usize, sending: bool, length: u32) -> Result<(), Refusal>
    requires { i < most_events }
    ensures { Judged (packet_refused i sending length) tt result }
{
    if !sending {
        return Err(tables::refusal(12, i, 0));
    }
    if length < input::LEAST_BYTES {
        return Err(tables::refusal(13, i, 0));
    }
    if input::MOST_BYTES < length {
        return Err(tables::refusal(13, i, 0));
    }
    Ok(())
}

// A packet for the class in this row, or for no class: 11, 12, 13; otherwise the row.
pub fn check_packet(
    senders: &RowMarks,
    i: usize,
    row: Option<usize>,
    length: u32,
) -> Result<u8, Refusal>
    requires { IfSome row (λ r. r < most_rows) × (i < most_events) }
    ensures { (tree : Tree) (word class : ℕ) (idle : Bool) → Found tree senders.now class row
        → Meets tree i word (Arrival class length) idle result }
{
    let Some(row) = row else {
        return Err(tables::refusal(11, i, 0));
    };
    packet_refused(i, senders[row], length)?;
    Ok(row as u8)
}

// An arrival.
fn check_arrival(
    identifiers: &[u32],
    rows: &OnAirRows,
    senders: &RowMarks,
    i: usize,
    class: u32,
    length: u32,
) -> Result<u8, Refusal>
    requires { AllFiled identifiers.now rows.now × (i < most_events) }
    ensures { (tree : Tree) (word : ℕ) (idle : Bool) → Known tree identifiers.now senders.now
        → Meets tree i word (Arrival class length) idle result }
{
    check_packet(senders, i, row_of(identifiers, rows, class), length)
}

// A finish: 13, 14; it is for no row.
pub fn check_finish(i: usize, word: u32, idle: bool) -> Result<u8, Refusal>
    requires { i < most_events }
    ensures { (tree : Tree) → Meets tree i word Finish idle result }
{
    if word != 0 {
        return Err(tables::refusal(13, i, 0));
    }
    if idle {
        return Err(tables::refusal(14, i, 0));
    }
    Ok(0)
}

// An event at place i, with its length word, where the line is idle or not: what refuses it, or the row that it is for.
pub fn check_event(
    identifiers: &[u32],
    rows: &OnAirRows,
    senders: &RowMarks,
    i: usize,
    word: u32,
    event: Event,
    idle: bool,
) -> Result<u8, Refusal>
    requires { AllFiled identifiers.now rows.now × (i < most_events) }
    ensures { (tree : Tree) → Known tree identifiers.now senders.now → Meets tree i word event idle result }
{
    match event {
        Event::Arrival { class, length } => {
            check_arrival(identifiers, rows, senders, i, class, length)
        }
        Event::Finish => check_finish(i, word, idle),
    }
}

// Event by event, 11 to 14; otherwise the row that each is for. The line is idle where as many finishes as arrivals came before. The rows
// are filled in where they stand.
fn check_list(
    identifiers: &[u32],
    senders: &RowMarks,
    classes: &[u32],
    lengths: &[u32],
    rows: &mut EventRows,
) -> Result<(), Refusal>
    requires sizes { (0 < lists.length identifiers.now) × (lists.length identifiers.now ≤ most_rows) × (lists.length classes.now ≤ most_events)
        × (lists.length lengths.now ≡ lists.length classes.now) }
    requires none_filled { rows.old ≡ no_rows }
    ensures { (tree : Tree) → Known tree identifiers.now senders.now
        → MeetsAll tree (events_of classes.now lengths.now) (filled rows.new result) }
{
    let on_air_rows = filed(identifiers);
    let mut arrivals = 0;
    let mut finishes = 0;
    for i in 0..classes.len() {
        let word = lengths[i];
        let event = input::decode(classes[i], word);
        let row = check_event(
            identifiers,
            &on_air_rows,
            senders,
            i,
            word,
            event,
            arrivals <= finishes,
        )?;
        rows[i] = row;
        arrivals += one_arrival(event);
        finishes += one_finish(event);
    }
    Ok(())
}

// The check of a whole input, where the row of each event is filled in where it stands: handed over in a result they would be copied, on a
// thread's stack. Otherwise the table as it was read. Of a refused input any rows may be filled in.
pub fn check_into(
    identifiers: &[u32],
    parent_identifiers: &[u32],
    shares: &[u32],
    classes: &[u32],
    lengths: &[u32],
    room: ResultRoom,
    event_rows: &mut EventRows,
) -> Result<Reading, Refusal>
    requires { event_rows.old ≡ no_rows }
    ensures { Checks (table_of identifiers.now parent_identifiers.now shares.now)
        (events_of classes.now lengths.now) (room_in room) (with_rows event_rows.new result) }
{
    check_lengths(
        identifiers,
        parent_identifiers,
        shares,
        classes,
        lengths,
        room,
    )?;
    let reading = tables::read_sized(identifiers, parent_identifiers, shares)?;
    check_list(identifiers, &reading.senders, classes, lengths, event_rows)?;
    Ok(reading)
}

// The same, as a result.
pub fn check(
    identifiers: &[u32],
    parent_identifiers: &[u32],
    shares: &[u32],
    classes: &[u32],
    lengths: &[u32],
    room: ResultRoom,
) -> Result<Checked, Refusal>
    ensures { Checks (table_of identifiers.now parent_identifiers.now shares.now)
        (events_of classes.now lengths.now) (room_in room) result }
{
    let mut event_rows = [0; input::MOST_EVENTS];
    let reading = check_into(
        identifiers,
        parent_identifiers,
        shares,
        classes,
        lengths,
        room,
        &mut event_rows,
    )?;
    Ok(Checked {
        reading,
        event_rows,
    })
}
