// The replay of captured packets: what is refused of the capture and of what is lent, the list that its records make, and the run of it.
#![tactic(auto)]

ghost use Rattle.std.specs.Prelude.{◌≡◌, ◌≢◌, ◌*◌, ◌≤◌, ◌<◌, ◌^◌, IfErr};
ghost use Rattle.std.proofs.Math.ListN as lists;
ghost use Rattle.input.specs.Classes.{Table, tree_of};
ghost use Rattle.input.specs.Events.{Events};
ghost use Rattle.input.specs.Refusals.{or_else};
ghost use Rattle.input.specs.Lent.{table_of, events_of, room_with};
ghost use Rattle.tables.specs.Judged.{Judged};
ghost use Rattle.checks.specs.Counted.{SlicesOf, lengths_refused, room_in};
ghost use Rattle.engine.specs.Run.{lent_of, left_of, answer_of};
ghost use Rattle.pcap.specs.Lists.{Stamped, arrivals_with, list_of};
ghost use Rattle.pcap.specs.Outcomes as outcomes;
ghost use Rattle.pcap.specs.Outcomes.{Replays};
ghost use Rattle.captures.specs.Lent.{capture_lent, capture_left, lent_with, most_records};
ghost use Rattle.captures.specs.Replayed.{Replayed};

use checks::ResultRoom;
use choosing::Finding;
use input::{MOST_EVENTS, Refusal};
use pcap::Sorting;

// Records of the longest capture that is replayed: each makes two events.
pub const MOST_RECORDS: usize = MOST_EVENTS / 2;

// 3: a slice for the list has fewer words than there are events.
fn list_refused(events: usize, classes: usize, lengths: usize) -> Result<(), Refusal>
    ensures { Judged (outcomes.list_refused events classes lengths) tt result }
{
    if classes < events {
        return Err(tables::refusal(3, 0, 0));
    }
    if lengths < events {
        return Err(tables::refusal(3, 0, 0));
    }
    Ok(())
}

// What is looked for before the table where the capture has so many records: 1, 2 and 3, of slices of so many words.
fn first_refused(
    records: usize,
    rows: usize,
    parents: usize,
    shares: usize,
    classes: usize,
    lengths: usize,
    room: ResultRoom,
) -> Result<(), Refusal>
    requires { (rows < 2 ^ 61) × (records < 2 ^ 61) }
    ensures { (table : Table) (list : Events) → SlicesOf table list rows parents shares (2 * records) (2 * records)
        → Judged (or_else (lengths_refused table list (room_in room)) (outcomes.list_refused (2 * records) classes lengths)) tt result }
{
    let events = 2 * records;
    checks::check_counts(rows, parents, shares, events, events, room)?;
    list_refused(events, classes, lengths)
}

// A list that was made, run; where that is done it is copied. Slices stand one by one, here and below, as the run takes them.
fn run_list<F: Finding>(
    identifiers: &[u32],
    parent_identifiers: &[u32],
    shares: &[u32],
    list_classes: &[u32],
    list_lengths: &[u32],
    classes: &mut [u32],
    lengths: &mut [u32],
    order: &mut [u32],
    report: &mut [u64],
    lags: &mut [i64],
    working: &mut [u32],
) -> Result<u32, Refusal>
    requires classes_room { lists.length list_classes.now ≤ lists.length classes.old }
    requires lengths_room { lists.length list_lengths.now ≤ lists.length lengths.old }
    ensures numbered { IfErr result (λ refusal. refusal.number ≢ 0) }
    ensures replayed { Replayed
        (lent_of identifiers.now parent_identifiers.now shares.now list_classes.now list_lengths.now
        order.old report.old lags.old working.old)
        classes.old lengths.old
        (left_of (answer_of result) order.new report.new lags.new working.new) classes.new lengths.new }
{
    let sent = engine::run::<F>(
        identifiers,
        parent_identifiers,
        shares,
        list_classes,
        list_lengths,
        order,
        report,
        lags,
        working,
    )?;
    csv_text::copy(list_classes, classes);
    csv_text::copy(list_lengths, lengths);
    Ok(sent)
}

// Packets that arrive at these moments, replayed: the table's own refusals, then those of the list, and the run.
fn replay_packets<F: Finding>(
    stamps: &[u64],
    packet_classes: &[u32],
    packet_lengths: &[u32],
    rate: u32,
    identifiers: &[u32],
    parent_identifiers: &[u32],
    shares: &[u32],
    classes: &mut [u32],
    lengths: &mut [u32],
    order: &mut [u32],
    report: &mut [u64],
    lags: &mut [i64],
    working: &mut [u32],
) -> Result<u32, Refusal>
    requires stamped { Stamped stamps.now }
    requires lengths_fine { (lengths_refused (table_of identifiers.now parent_identifiers.now shares.now)
        (list_of (tree_of (table_of identifiers.now parent_identifiers.now shares.now)) (arrivals_with stamps.now packet_classes.now packet_lengths.now) rate)
        (room_with (lists.length order.old) (lists.length report.old) (lists.length lags.old) (lists.length working.old))).number ≡ 0 }
    requires classes_room { 2 * lists.length stamps.now ≤ lists.length classes.old }
    requires lengths_room { 2 * lists.length stamps.now ≤ lists.length lengths.old }
    ensures numbered { IfErr result (λ refusal. refusal.number ≢ 0) }
    ensures replayed { Replayed
        (lent_with (table_of identifiers.now parent_identifiers.now shares.now)
        (list_of (tree_of (table_of identifiers.now parent_identifiers.now shares.now)) (arrivals_with stamps.now packet_classes.now packet_lengths.now) rate)
        order.old report.old lags.old working.old)
        classes.old lengths.old
        (left_of (answer_of result) order.new report.new lags.new working.new) classes.new lengths.new }
{
    let reading = tables::read_sized(identifiers, parent_identifiers, shares)?;
    let mut list_classes = listing::no_words();
    let mut list_lengths = listing::no_words();
    listing::list::<F>(
        stamps,
        packet_classes,
        packet_lengths,
        rate,
        identifiers,
        &reading,
        &mut list_classes,
        &mut list_lengths,
    )?;
    let events = 2 * stamps.len();
    run_list::<F>(
        identifiers,
        parent_identifiers,
        shares,
        &list_classes[..events],
        &list_lengths[..events],
        classes,
        lengths,
        order,
        report,
        lags,
        working,
    )
}

// A zero for each record that there can be, as a stamp.
fn no_stamps() -> [u64; MOST_RECORDS]
    ensures { most_records ≡ lists.length result }
{
    [0; MOST_RECORDS]
}

// The same, as a word.
fn no_packets() -> [u32; MOST_RECORDS]
    ensures { most_records ≡ lists.length result }
{
    [0; MOST_RECORDS]
}

// The replay of a capture by one of the ways. Of what is refused it answers the refusal and writes nothing; else it writes the list that the
// capture makes and what its run leaves, and answers how many packets went on the line.
pub fn replay<F: Finding>(
    capture: &[u8],
    sorting: Sorting,
    rate: u32,
    identifiers: &[u32],
    parent_identifiers: &[u32],
    shares: &[u32],
    classes: &mut [u32],
    lengths: &mut [u32],
    order: &mut [u32],
    report: &mut [u64],
    lags: &mut [i64],
    working: &mut [u32],
) -> Result<u32, Refusal>
    ensures numbered { IfErr result (λ refusal. refusal.number ≢ 0) }
    ensures replayed { Replays
        (capture_lent capture.now sorting rate (table_of identifiers.now parent_identifiers.now shares.now)
        (events_of classes.old lengths.old) order.old report.old lags.old working.old)
        (capture_left (events_of classes.new lengths.new) (left_of (answer_of result) order.new report.new lags.new working.new)) }
{
    let scan = records::check(capture, rate)?;
    let room = ResultRoom {
        order: order.len(),
        report: report.len(),
        lags: lags.len(),
        working: working.len(),
    };
    first_refused(
        scan.records,
        identifiers.len(),
        parent_identifiers.len(),
        shares.len(),
        classes.len(),
        lengths.len(),
        room,
    )?;
    let mut stamps = no_stamps();
    let mut packet_classes = no_packets();
    let mut packet_lengths = no_packets();
    records::read(
        capture,
        scan.layout,
        sorting,
        scan.records,
        &mut stamps,
        &mut packet_classes,
        &mut packet_lengths,
    );
    replay_packets::<F>(
        &stamps[..scan.records],
        &packet_classes[..scan.records],
        &packet_lengths[..scan.records],
        rate,
        identifiers,
        parent_identifiers,
        shares,
        classes,
        lengths,
        order,
        report,
        lags,
        working,
    )
}
