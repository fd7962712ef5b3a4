// The check of a capture: the file header once, then record by record until the first that is refused, or the end.
ghost use Rattle.std.specs.Prelude.{◌≡◌, ◌≤◌, ◌<◌, ◌^◌, length};
ghost use Rattle.pcap.specs.Headers.{header_bytes, layout_of};
ghost use Rattle.pcap.specs.Faults.{records_refused};
ghost use Rattle.pcap.specs.Faults as faults;
ghost use Rattle.tables.specs.Judged.{Judged};
ghost use Rattle.records.specs.Scans.{Next, scan_of, Scans};

use crate::fields::{included, stamp};
use crate::headers::{header_refused, layout_of};
use crate::packets::{not_ipv4, packet};
use crate::{HEADER_BYTES, RECORD_BYTES, Scan};
use input::Refusal;
use pcap::Layout;

// The largest place that a refusal can name.
const MOST_PLACE: usize = 4294967295;

// The place of record k, as far as a place can say.
fn record_place(k: usize) -> usize
    ensures { (result ≡ faults.record_place k) × (result < 2 ^ 32) }
{
    k.min(MOST_PLACE)
}

// 35 to 38, of record k, which begins at this byte; the record before it has this stamp.
fn begun_refused(
    capture: &[u8],
    layout: Layout,
    k: usize,
    at: usize,
    last: u64,
) -> Result<(), Refusal>
    requires { Next capture.now layout k at last }
    ensures { Judged (faults.begun_refused capture.now k) tt result }
{
    let place = record_place(k);
    let left = capture.len() - at;
    if left < RECORD_BYTES {
        return Err(tables::refusal(35, place, 0));
    }
    if left - RECORD_BYTES < included(capture, layout, at) {
        return Err(tables::refusal(36, place, 0));
    }
    if not_ipv4(packet(capture, layout, at)) {
        return Err(tables::refusal(37, place, 0));
    }
    if stamp(capture, layout, at) < last {
        return Err(tables::refusal(38, place, 0));
    }
    Ok(())
}

// The records of a capture whose file header passed. Each says how far it goes, so no count of turns is known before.
fn check_records(capture: &[u8], layout: Layout) -> Result<Scan, Refusal>
    requires { (header_bytes ≤ length capture.now) × (layout ≡ layout_of capture.now) }
    ensures { Judged (records_refused capture.now) (scan_of capture.now) result }
{
    let mut at = HEADER_BYTES;
    let mut last = 0;
    let mut records = 0;
    while at < capture.len() {
        begun_refused(capture, layout, records, at, last)?;
        last = stamp(capture, layout, at);
        at = at + RECORD_BYTES + included(capture, layout, at);
        records += 1;
    }
    Ok(Scan { layout, records })
}

// The check of a capture that is to go out at this rate: the first refusal, 30 to 38, or what was found.
pub fn check(capture: &[u8], rate: u32) -> Result<Scan, Refusal>
    ensures { Scans capture.now rate result }
{
    header_refused(capture, rate)?;
    check_records(capture, layout_of(capture))
}
