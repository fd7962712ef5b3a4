// The numbers of the header of the record that begins at a byte.
ghost use Rattle.std.specs.Prelude.{◌≡◌, ◌+◌, ◌≤◌, ◌<◌, ◌^◌, length};
ghost use Rattle.pcap.specs.Headers as headers;
ghost use Rattle.pcap.specs.Headers.{record_bytes};
ghost use Rattle.pcap.specs.Records as records;

use crate::numbers::word;
use pcap::Layout;
use words::{long, wide};

// How many bytes of its packet it includes.
pub fn included(capture: &[u8], layout: Layout, at: usize) -> usize
    requires { at + record_bytes ≤ length capture.now }
    ensures { (result < 2 ^ 32) × (layout ≡ headers.layout_of capture.now → result ≡ records.included_at capture.now at) }
{
    wide(word(capture, layout.big, at + 8))
}

// How many bytes the packet had on the air.
pub fn original(capture: &[u8], layout: Layout, at: usize) -> u32
    requires { at + record_bytes ≤ length capture.now }
    ensures { layout ≡ headers.layout_of capture.now → result ≡ records.field_at capture.now at 12 }
{
    word(capture, layout.big, at + 12)
}

// Microseconds of a second and a fraction of it.
fn microseconds(layout: Layout, seconds: u32, fraction: u32) -> u64
    ensures { (result < 2 ^ 53) × (result ≡ records.microseconds layout seconds fraction) }
{
    let whole = long(seconds) * 1000000;
    if layout.nano {
        return whole + long(fraction / 1000);
    }
    whole + long(fraction)
}

// Its stamp.
pub fn stamp(capture: &[u8], layout: Layout, at: usize) -> u64
    requires { at + record_bytes ≤ length capture.now }
    ensures { (result < 2 ^ 53) × (layout ≡ headers.layout_of capture.now → result ≡ records.stamp_at capture.now at) }
{
    let seconds = word(capture, layout.big, at);
    let fraction = word(capture, layout.big, at + 4);
    microseconds(layout, seconds, fraction)
}
