// The packet of a record, what refuses it, and the class that it is for.
ghost use Rattle.std.specs.Prelude.{◌≡◌, ◌+◌, ◌≤◌, ◌<◌, length};
ghost use Rattle.pcap.specs.Headers.{record_bytes, layout_of};
ghost use Rattle.pcap.specs.Records.{packet_at, code_point};
ghost use Rattle.pcap.specs.Records as records;
ghost use Rattle.pcap.specs.Faults as faults;

use crate::fields::included;
use crate::{LEAST_HEADER, RECORD_BYTES};
use pcap::{Layout, Sorting};

// The packet of the record that begins at this byte, a part of the capture's own bytes: as much of it as is there.
pub fn packet(capture: &[u8], layout: Layout, at: usize) -> &[u8]
    requires { at + record_bytes ≤ length capture.now }
    ensures { layout ≡ layout_of capture.now → result.now ≡ packet_at capture.now at }
{
    let start = at + RECORD_BYTES;
    let bytes = included(capture, layout, at);
    if capture.len() - start < bytes {
        return &capture[start..];
    }
    &capture[start..start + bytes]
}

// A whole packet is no IPv4 packet: it is too short for a header, or its first byte has another version or too short a length.
pub fn not_ipv4(packet: &[u8]) -> bool
    ensures { result ≡ faults.not_ipv4 (length packet.now) packet.now }
{
    if packet.len() < LEAST_HEADER {
        return true;
    }
    let first = packet[0];
    if first / 16 != 4 {
        return true;
    }
    first % 16 < 5
}

// The class for a code point.
pub fn class_for(sorting: Sorting, point: u8) -> u32
    ensures { result ≡ records.class_for sorting point }
{
    match point {
        46 | 48..=63 => sorting.first,
        8..=39 => sorting.second,
        _ => sorting.third,
    }
}

// The class that a packet is for.
pub fn class_of(sorting: Sorting, packet: &[u8]) -> u32
    requires { 1 < length packet.now }
    ensures { result ≡ records.class_for sorting (code_point packet.now) }
{
    class_for(sorting, packet[1] / 4)
}
