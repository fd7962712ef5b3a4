// The list of events that packets make which arrive at given moments: built with the box, event by event, until one is refused.
#![tactic(auto)]

mod next;

ghost use Rattle.std.specs.Prelude.{◌≡◌, ◌*◌, ◌≤◌};
ghost use Rattle.std.proofs.Math.ListN as lists;
ghost use Rattle.input.specs.Limits.{most_events};
ghost use Rattle.input.specs.EventRows.{no_rows};
ghost use Rattle.arrays.specs.Arrays.{rows_in, tree_in};
ghost use Rattle.checks.specs.Filed.{AllFiled};
ghost use Rattle.pcap.specs.Lists.{Stamped, arrivals_with};
ghost use Rattle.listing.specs.Reached.{Ground, Roomy, Reached, Turned, Lists};

use arrays::{CountArrays, RowArrays};
use choosing::Finding;
use input::{MOST_EVENTS, MOST_ROWS, OnAirRows, Refusal, RowWords};
use next::{arrived_after, due_after, next_event};
pub use next::{sending, stamp_of};
use tables::Reading;

// After an event: how many packets have arrived, when the one on the line is finished, and how many went there.
#[derive(Clone, Copy)]
struct Turn {
    arrived: u32,
    due: u64,
    sent: u32,
}

// The event at place i: which one it is, whether it is refused, and what it does.
fn take_event<F: Finding>(
    stamps: &[u64],
    packet_classes: &[u32],
    packet_lengths: &[u32],
    rate: u32,
    identifiers: &[u32],
    on_air_rows: &OnAirRows,
    reading: &Reading,
    rows: &mut RowArrays,
    finding: &mut F,
    counts: &mut CountArrays,
    lasts: &mut RowWords,
    working: &mut [u32],
    order: &mut [u32],
    classes: &mut [u32],
    lengths: &mut [u32],
    i: usize,
    before: Turn,
) -> Result<Turn, Refusal>
    requires grounded { Ground (tree_in (lists.length identifiers.now) identifiers.now reading.now.tree) identifiers.now reading.now.senders }
    requires filed { AllFiled identifiers.now on_air_rows.now }
    requires stamped { Stamped stamps.now }
    requires roomy { Roomy i working.old order.old classes.old lengths.old }
    requires reached { Reached (F.filed finding.old) (tree_in (lists.length identifiers.now) identifiers.now reading.now.tree)
        (arrivals_with stamps.now packet_classes.now packet_lengths.now) rate i before
        (rows_in rows.old) counts.old lasts.old working.old classes.old lengths.old }
    ensures { Turned (F.filed finding.new) (tree_in (lists.length identifiers.now) identifiers.now reading.now.tree)
        (arrivals_with stamps.now packet_classes.now packet_lengths.now) rate i result
        (rows_in rows.new) counts.new lasts.new working.new classes.new lengths.new }
{
    let idle = rows.heads[0] == 0;
    let next = next_event(
        stamps,
        packet_classes,
        packet_lengths,
        idle,
        before.arrived,
        before.due,
    );
    classes[i] = next.class;
    lengths[i] = next.length;
    let row = checks::check_event(
        identifiers,
        on_air_rows,
        &reading.senders,
        i,
        next.length,
        input::decode(next.class, next.length),
        idle,
    )?;
    let sent = events::step(
        &reading.tree,
        &lengths[..i + 1],
        rows,
        finding,
        counts,
        lasts,
        working,
        order,
        i,
        row,
        before.sent,
    );
    Ok(Turn {
        arrived: arrived_after(next, before.arrived),
        due: due_after(next, idle, before.due, rate, rows.head_lengths[0]),
        sent,
    })
}

// A zero for each event that there can be. A proof that looked at more than these two facts would count all of them.
pub fn no_words() -> [u32; MOST_EVENTS]
    ensures { (result ≡ no_rows) × (most_events ≡ lists.length result) }
{
    [0; MOST_EVENTS]
}

// The list of these packets, over the first words of two slices, or the refusal of its first event that is refused.
pub fn list<F: Finding>(
    stamps: &[u64],
    packet_classes: &[u32],
    packet_lengths: &[u32],
    rate: u32,
    identifiers: &[u32],
    reading: &Reading,
    classes: &mut [u32],
    lengths: &mut [u32],
) -> Result<(), Refusal>
    requires grounded { Ground (tree_in (lists.length identifiers.now) identifiers.now reading.now.tree) identifiers.now reading.now.senders }
    requires stamped { Stamped stamps.now }
    requires events_few { 2 * lists.length stamps.now ≤ most_events }
    requires classes_room { 2 * lists.length stamps.now ≤ lists.length classes.old }
    requires lengths_room { 2 * lists.length stamps.now ≤ lists.length lengths.old }
    ensures { Lists (tree_in (lists.length identifiers.now) identifiers.now reading.now.tree)
        (arrivals_with stamps.now packet_classes.now packet_lengths.now) rate result classes.new lengths.new }
{
    let on_air_rows = checks::filed(identifiers);
    let mut rows = RowArrays::zeros();
    let mut finding = F::open(identifiers.len(), &reading.tree);
    let mut counts = CountArrays::zeros();
    let mut lasts = [0u32; MOST_ROWS];
    let mut working = no_words();
    let mut order = no_words();
    let mut turn = Turn {
        arrived: 0,
        due: 0,
        sent: 0,
    };
    for i in 0..2 * stamps.len() {
        turn = take_event(
            stamps,
            packet_classes,
            packet_lengths,
            rate,
            identifiers,
            &on_air_rows,
            reading,
            &mut rows,
            &mut finding,
            &mut counts,
            &mut lasts,
            &mut working,
            &mut order,
            classes,
            lengths,
            i,
            turn,
        )?;
    }
    Ok(())
}
