// The file header: how a capture stores its numbers, and what of its first 24 bytes is refused.
ghost use Rattle.std.specs.Prelude.{◌≡◌, true, false, ◌||◌, ◌≤◌, length};
ghost use Rattle.pcap.specs.Headers as headers;
ghost use Rattle.pcap.specs.Headers.{header_bytes};
ghost use Rattle.pcap.specs.Faults.{header_refused};
ghost use Rattle.tables.specs.Judged.{Judged};

use crate::numbers::{half, word};
use crate::{HEADER_BYTES, MAJOR_VERSION, MICRO_MAGIC, MINOR_VERSION, NANO_MAGIC, RAW_IP};
use input::Refusal;
use pcap::Layout;

// Whether the capture begins with a magic number, read in this byte order.
fn magic(capture: &[u8], big: bool) -> bool
    requires { header_bytes ≤ length capture.now }
    ensures { result ≡ headers.magic big capture.now }
{
    let first = word(capture, big, 0);
    if first == MICRO_MAGIC {
        return true;
    }
    first == NANO_MAGIC
}

// Whether it does in either.
fn any_magic(capture: &[u8]) -> bool
    requires { header_bytes ≤ length capture.now }
    ensures { result ≡ (headers.magic false capture.now || headers.magic true capture.now) }
{
    if magic(capture, false) {
        return true;
    }
    magic(capture, true)
}

// The byte order in which it does, and what the fractions of a second are.
pub fn layout_of(capture: &[u8]) -> Layout
    requires { header_bytes ≤ length capture.now }
    ensures { result ≡ headers.layout_of capture.now }
{
    let big = magic(capture, true);
    Layout {
        big,
        nano: word(capture, big, 0) == NANO_MAGIC,
    }
}

// 30 to 34.
pub fn header_refused(capture: &[u8], rate: u32) -> Result<(), Refusal>
    ensures { Judged (header_refused capture.now rate) tt result }
{
    if rate == 0 {
        return Err(tables::refusal(30, 0, 0));
    }
    if capture.len() < HEADER_BYTES {
        return Err(tables::refusal(31, 0, 0));
    }
    if !any_magic(capture) {
        return Err(tables::refusal(32, 0, 0));
    }
    let layout = layout_of(capture);
    if half(capture, layout.big, 4) != MAJOR_VERSION {
        return Err(tables::refusal(33, 0, 0));
    }
    if half(capture, layout.big, 6) != MINOR_VERSION {
        return Err(tables::refusal(33, 0, 0));
    }
    if word(capture, layout.big, 20) != RAW_IP {
        return Err(tables::refusal(34, 0, 0));
    }
    Ok(())
}
