// The records of a capture that passed its check, as arrivals; and where a record begins.
ghost use Rattle.std.specs.Prelude.{◌≡◌, ◌+◌, ◌≤◌, ◌<◌, ◌^◌, length, set, IfSome};
ghost use Rattle.std.specs.Option.{SomeIff};
ghost use Rattle.pcap.specs.Headers.{record_bytes, layout_of};
ghost use Rattle.pcap.specs.Records.{field_at, included_at, offset, packet_at, stamp_at, code_point, class_for};
ghost use Rattle.pcap.specs.Lists.{arrivals_with};
ghost use Rattle.records.specs.Reads.{Found, Reads};

use crate::fields::{included, original, stamp};
use crate::packets::{class_of, packet};
use crate::{HEADER_BYTES, RECORD_BYTES};
use pcap::{Layout, Sorting};

// The record that begins at this byte, as the arrival at place k.
fn read_record(
    capture: &[u8],
    layout: Layout,
    sorting: Sorting,
    at: usize,
    k: usize,
    stamps: &mut [u64],
    classes: &mut [u32],
    lengths: &mut [u32],
)
    requires in_capture { (layout ≡ layout_of capture.now) × (at + record_bytes ≤ length capture.now) × (1 < length (packet_at capture.now at)) }
    requires columns_room { (k < length stamps.old) × (k < length classes.old) × (k < length lengths.old) }
    ensures { (stamps.new ≡ set stamps.old k (stamp_at capture.now at))
        × (classes.new ≡ set classes.old k (class_for sorting (code_point (packet_at capture.now at))))
        × (lengths.new ≡ set lengths.old k (field_at capture.now at 12))
        × (stamp_at capture.now at < 2 ^ 53) }
{
    stamps[k] = stamp(capture, layout, at);
    classes[k] = class_of(sorting, packet(capture, layout, at));
    lengths[k] = original(capture, layout, at);
}

// All records of a capture whose check found this layout and so many records, over the first words of three slices: columns, as the
// definitions and the timetable have them.
pub fn read(
    capture: &[u8],
    layout: Layout,
    sorting: Sorting,
    records: usize,
    stamps: &mut [u64],
    classes: &mut [u32],
    lengths: &mut [u32],
)
    requires found { Found capture.now layout records }
    requires columns_room { (records ≤ length stamps.old) × (records ≤ length classes.old) × (records ≤ length lengths.old) }
    ensures { Reads capture.now sorting (arrivals_with stamps.old classes.old lengths.old)
        (arrivals_with stamps.new classes.new lengths.new) }
{
    let mut at = HEADER_BYTES;
    for k in 0..records {
        read_record(capture, layout, sorting, at, k, stamps, classes, lengths);
        at = at + RECORD_BYTES + included(capture, layout, at);
    }
}

// The byte after the record that begins at this one; none where the capture ends before that.
fn next(capture: &[u8], layout: Layout, at: usize) -> Option<usize>
    requires { at < 2 ^ 63 }
    ensures inside { IfSome result (λ end. end ≤ length capture.now) }
    ensures record_end { layout ≡ layout_of capture.now
        → SomeIff result (at + record_bytes + included_at capture.now at ≤ length capture.now) (at + record_bytes + included_at capture.now at) }
{
    let start = at + RECORD_BYTES;
    if capture.len() < start {
        return None;
    }
    let bytes = included(capture, layout, at);
    if capture.len() - start < bytes {
        return None;
    }
    Some(start + bytes)
}

// The byte at which record k begins; where the capture ends before it, the byte at which the record begins in which it ends.
pub fn offset_of(capture: &[u8], layout: Layout, k: usize) -> usize
    ensures { layout ≡ layout_of capture.now → offset capture.now k ≤ length capture.now
        → result ≡ offset capture.now k }
{
    let mut at = HEADER_BYTES;
    for _ in 0..k {
        match next(capture, layout, at) {
            Some(end) => at = end,
            None => return at,
        }
    }
    at
}
