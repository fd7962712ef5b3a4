// What is printed of a replay that is done: the answer, the heading, and a line for each packet in the order of sending.
ghost use Rattle.std.specs.Prelude.{◌≤◌, ◌<◌, length};
ghost use Rattle.input.specs.Limits.{most_events};
ghost use Rattle.timetable.specs.Counted.{Recorded};
ghost use Rattle.pcap.specs.Lists.{Stamped};
ghost use Rattle.timetable.specs.Free.{most_packets, most_free};

use files::{Stopped, first};
use input::MOST_EVENTS;
use output::Page;
use timetable::{MOST_FREE, MOST_PACKETS, PACKETS_BYTES, Packets};
use words::long;

// Prints all of it, from the records' stamps, the list that was replayed and the order of sending.
pub fn print(
    rt: &HostRuntime,
    count: u32,
    rate: u32,
    stamps: &[u64],
    classes: &[u32],
    lengths: &[u32],
    order: &[u32],
) -> Result<(), Stopped>
    requires { Stamped stamps.now × (length classes.now ≤ most_events) }
{
    print_heading(rt, count)?;
    let count = long(count);
    let classes = first(classes, 2 * count);
    let mut records = [0u32; MOST_EVENTS + 1];
    timetable::count_records(classes, &mut records);
    let packets = Packets {
        stamps,
        classes,
        lengths: first(lengths, 2 * count),
        records: &records,
        rate,
    };
    print_packets(rt, packets, first(order, count))
}

// The answer's two lines and the heading.
fn print_heading(rt: &HostRuntime, count: u32) -> Result<(), Stopped> {
    let mut page: Page<512> = Page::blank();
    lines::put_answer(&mut page, Ok(count));
    timetable::put_heading(&mut page);
    files::print(rt, &page)
}

// Some packets at a time, so that a small page holds their lines. No run comes to a moment past the latest (`Latest: in-time` of the
// crate `timetable`).
fn print_packets(rt: &HostRuntime, packets: Packets, order: &[u32]) -> Result<(), Stopped>
    requires { Stamped packets.stamps.now × (length packets.classes.now < length packets.records.now) × Recorded packets.classes.now packets.records.now }
{
    let mut free = 0;
    for piece in order.chunks(MOST_PACKETS) {
        free = print_piece(rt, packets, free, piece)?;
        if MOST_FREE < free {
            return Err(Stopped::Failed);
        }
    }
    Ok(())
}

// Prints the lines of these packets, and answers when the line is free after them.
fn print_piece(rt: &HostRuntime, packets: Packets, free: u64, order: &[u32]) -> Result<u64, Stopped>
    requires { Stamped packets.stamps.now × (length packets.classes.now < length packets.records.now) × Recorded packets.classes.now packets.records.now
        × (free ≤ most_free) × (length order.now ≤ most_packets) }
{
    let mut page: Page<PACKETS_BYTES> = Page::blank();
    let free = packets.put_packets(&mut page, free, order);
    files::print(rt, &page)?;
    Ok(free)
}
