// Which event comes next, and how many packets have arrived and when the line's is finished after it.
ghost use Rattle.std.specs.Prelude.{◌≡◌, cond, not, ◌&&◌, ◌||◌, ◌+◌, ◌*◌, ◌≤◌, ◌^◌, leb, eqb, get_or, length};
ghost use Rattle.input.specs.Limits.{most_events, most_bytes};
ghost use Rattle.pcap.specs.Lists.{packet_length, sending};
ghost use Rattle.listing.specs.Next.{NextOf};

use words::{wide, word};

// The next event: whether it is a finish, its two words, and its moment. Not an `Event`, since a packet of class 0 has the words of no event,
// and is refused as they stand.
#[derive(Clone, Copy)]
pub struct Next {
    pub finish: bool,
    pub class: u32,
    pub length: u32,
    pub moment: u64,
}

// The stamp of the k-th packet; 0 where there is none.
pub fn stamp_of(stamps: &[u64], k: usize) -> u64
    ensures { result ≡ get_or stamps.now k 0 }
{
    if k < stamps.len() {
        return stamps[k];
    }
    0
}

// Whether the next event is a finish: of so many packets so many have arrived, the next one at this stamp.
fn finishes_next(idle: bool, arrived: usize, packets: usize, due: u64, stamp: u64) -> bool
    ensures { result ≡ (not idle && (eqb arrived packets || leb due stamp)) }
{
    if idle {
        return false;
    }
    if arrived == packets {
        return true;
    }
    due <= stamp
}

// The length word of a packet for this class.
fn packet_length(class: u32, length: u32) -> u32
    ensures { result ≡ packet_length class length }
{
    if class == 0 { 1 } else { length }
}

pub fn next_event(
    stamps: &[u64],
    classes: &[u32],
    lengths: &[u32],
    idle: bool,
    arrived: u32,
    due: u64,
) -> Next
    ensures { NextOf stamps.now classes.now lengths.now idle arrived due result }
{
    let k = wide(arrived);
    let stamp = stamp_of(stamps, k);
    if finishes_next(idle, k, stamps.len(), due, stamp) {
        return Next {
            finish: true,
            class: 0,
            length: 0,
            moment: due,
        };
    }
    let class = word(classes, arrived);
    Next {
        finish: false,
        class,
        length: packet_length(class, word(lengths, arrived)),
        moment: stamp,
    }
}

// Microseconds that a line of this rate takes to send a packet.
pub fn sending(rate: u32, length: u32) -> u64
    ensures { (result ≡ sending rate length) × (result ≤ length * 1000000) }
{
    shares::rounded_up(length as u64 * 1000000, rate as u64)
}

// How many packets have arrived after the next event.
pub fn arrived_after(next: Next, arrived: u32) -> u32
    requires { arrived ≤ most_events }
    ensures { result ≡ arrived + cond next.finish 0 1 }
{
    if next.finish {
        return arrived;
    }
    arrived + 1
}

// When the line's packet, of this length, is finished after the next event, which found the line idle or not.
pub fn due_after(next: Next, idle: bool, due: u64, rate: u32, length: u32) -> u64
    requires { (next.moment ≤ 2 ^ 62) × (length ≤ most_bytes) }
    ensures { result ≡ cond (next.finish || idle) (next.moment + sending rate length) due }
{
    if next.finish {
        return next.moment + sending(rate, length);
    }
    if idle {
        return next.moment + sending(rate, length);
    }
    due
}
