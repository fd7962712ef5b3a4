// The lines of the packets of a replayed capture, put on lent bytes of which the first so many are used.
ghost use Rattle.std.specs.Prelude.{◌≡◌, [], ◌∷◌, ◌++◌, ◌+◌, ◌≤◌, ◌<◌, ◌^◌, max, length};
ghost use Rattle.input.specs.Lent.{events_of};
ghost use Rattle.output.specs.Pages.{page_of, Puts};
ghost use Rattle.output.specs.Numbers.{decimal};
ghost use Rattle.forms.specs.Bytes.{comma, line_end};
ghost use Rattle.pcap.specs.Lists.{most_stamp, Stamped};
ghost use Rattle.pcap.specs.Printed.{free_after, packet_heading, packet_line, packet_lines};
ghost use Rattle.timetable.specs.Counted.{Recorded};
ghost use Rattle.timetable.specs.Free.{free_through, most_packets, most_free};

use crate::Packets;
use crate::counting::record_at;
use crate::moments::arrived_at;
use lines::lent::{put_end, put_field};
use listing::sending;
use output::{put_number, put_text, put_then};
use words::word;

// What is put so far: how much of the page is used, and when the line is free again.
#[derive(Clone, Copy)]
pub struct Put {
    pub used: usize,
    pub free: u64,
}

pub fn put_heading(page: &mut [u8], used: usize) -> usize
    ensures { Puts (packet_heading ++ line_end) (page_of page.old used) (page_of page.new result) }
{
    let heading = b"packet,record,class,length,arrived,sent,finished";
    let used = put_text(page, used, heading);
    put_end(page, used)
}

// The lines of some packets, one sent after the other, where the line is free from a moment on.
pub fn put_packets(page: &mut [u8], used: usize, packets: Packets, free: u64, order: &[u32]) -> Put
    requires { (length packets.classes.now < length packets.records.now) × Recorded packets.classes.now packets.records.now
        × Stamped packets.stamps.now × (free ≤ most_free) × (length order.now ≤ most_packets) }
    ensures lines { Puts (packet_lines packets.entry.stamps.now packets.entry.rate (events_of packets.entry.classes.now packets.entry.lengths.now) free order.now)
        (page_of page.old used) (page_of page.new result.used) }
    ensures free { result.free ≡ free_through packets.entry.stamps.now packets.entry.rate (events_of packets.entry.classes.now packets.entry.lengths.now) free order.now }
{
    let mut put = Put { used, free };
    for place in order {
        put = put_packet(page, put, packets, *place);
    }
    put
}

// One packet more.
fn put_packet(page: &mut [u8], put: Put, packets: Packets, place: u32) -> Put
    requires { (length packets.classes.now < length packets.records.now) × Recorded packets.classes.now packets.records.now
        × Stamped packets.stamps.now × (put.free ≤ 2 ^ 63) }
    ensures line { Puts (packet_line packets.entry.stamps.now packets.entry.rate (events_of packets.entry.classes.now packets.entry.lengths.now) put.free place)
        (page_of page.old put.used) (page_of page.new result.used) }
    ensures free { result.free ≡ free_after packets.entry.stamps.now packets.entry.rate (events_of packets.entry.classes.now packets.entry.lengths.now) put.free place }
    ensures most { result.free ≤ max put.free most_stamp + 2 ^ 52 }
{
    let record = record_at(packets.records, packets.classes.len(), place);
    let class = word(packets.classes, place);
    let length = word(packets.lengths, place);
    let arrived = arrived_at(packets.stamps, record);
    let sent = put.free.max(arrived);
    let free = sent + sending(packets.rate, length);
    let used = put_names(page, put.used, place, record, class, length);
    Put {
        used: put_moments(page, used, arrived, sent, free),
        free,
    }
}

// Four words, a comma after each.
fn put_names(
    page: &mut [u8],
    used: usize,
    place: u32,
    record: u32,
    class: u32,
    length: u32,
) -> usize
    ensures { Puts (decimal place ++ comma ∷ decimal «record» ++ comma ∷ decimal class ++ comma ∷ decimal length ++ comma ∷ [])
        (page_of page.old used) (page_of page.new result) }
{
    let used = put_then(page, used, place, b',');
    let used = put_then(page, used, record, b',');
    let used = put_then(page, used, class, b',');
    put_then(page, used, length, b',')
}

// Three moments, and the end of their line.
fn put_moments(page: &mut [u8], used: usize, arrived: u64, sent: u64, finished: u64) -> usize
    ensures { Puts (decimal arrived ++ comma ∷ decimal sent ++ comma ∷ decimal finished ++ line_end)
        (page_of page.old used) (page_of page.new result) }
{
    let used = put_field(page, used, arrived);
    let used = put_field(page, used, sent);
    let used = put_number(page, used, finished);
    put_end(page, used)
}
