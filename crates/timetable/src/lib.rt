// When each packet of a replayed capture arrived, went on the line and was finished, as lines put on a page.
#![tactic(auto)]

mod counting;
pub mod lent;
mod moments;

ghost use Rattle.std.specs.Prelude.{◌≡◌, ◌++◌, ◌≤◌, ◌<◌, length};
ghost use Rattle.input.specs.Lent.{events_of};
ghost use Rattle.output.specs.Pages.{Puts};
ghost use Rattle.forms.specs.Bytes.{line_end};
ghost use Rattle.pcap.specs.Lists.{Stamped};
ghost use Rattle.pcap.specs.Printed.{packet_heading, packet_lines};
ghost use Rattle.timetable.specs.Counted.{Recorded};
ghost use Rattle.timetable.specs.Free.{free_through, most_packets, most_free};

pub use counting::count_records;
use output::Page;

// Packets whose lines are put at a time, at most.
pub const MOST_PACKETS: usize = 512;

// Room for the lines of so many packets (`Room: packets-room`).
pub const PACKETS_BYTES: usize = 148 * MOST_PACKETS;

// The latest moment from which lines can be put: with all that is added to it 64 bits hold it.
pub const MOST_FREE: u64 = 4611686018427387904;

// What is known of packets: when each arrived, the list of events that they made with the record of each of its places, and the rate
// of their line.
#[derive(Clone, Copy)]
pub struct Packets<'a> {
    pub stamps: &'a [u64],
    pub classes: &'a [u32],
    pub lengths: &'a [u32],
    pub records: &'a [u32],
    pub rate: u32,
}

pub fn put_heading<const N: usize>(page: &mut Page<N>)
    ensures { Puts (packet_heading ++ line_end) page.old page.new }
{
    page.used = lent::put_heading(&mut page.bytes, page.used);
}

impl<'a> Packets<'a> {
    // The lines of some of them, one sent after the other, where the line is free from a moment on; and when it is free again.
    pub fn put_packets<const N: usize>(self, page: &mut Page<N>, free: u64, order: &[u32]) -> u64
        requires { (length self.classes.now < length self.records.now) × Recorded self.classes.now self.records.now × Stamped self.stamps.now
            × (free ≤ most_free) × (length order.now ≤ most_packets) }
        ensures lines { Puts (packet_lines self.entry.stamps.now self.entry.rate (events_of self.entry.classes.now self.entry.lengths.now) free order.now)
            page.old page.new }
        ensures free { result ≡ free_through self.entry.stamps.now self.entry.rate (events_of self.entry.classes.now self.entry.lengths.now) free order.now }
    {
        let put = lent::put_packets(&mut page.bytes, page.used, self, free, order);
        page.used = put.used;
        put.free
    }
}
