// A refusal of a capture as one sentence for a person: the file, where it is and what to mend.
ghost use Rattle.std.specs.Prelude.{◌+◌, ◌≤◌, length};
ghost use Rattle.pcap.specs.Headers.{header_bytes, record_bytes};

use crate::Given;
use crate::packets::of_packet;
use crate::reading::{headed, number_of};
use captures::MOST_RECORDS;
use files::{NO_FILE, Stopped, begin_refusal, print_answer, say};
use input::Refusal;
use output::Page;
use pcap::Layout;
use records::{
    HEADER_BYTES, LEAST_HEADER, RECORD_BYTES, half, included, layout_of, offset_of, packet, stamp,
    word,
};
use sentences::{Lists, SENTENCE_BYTES, fill, table_sentence};
use words::{long, wide};

// Prints a refusal's answer and, once that is written, says to standard error what it names. The classes and the lengths are the records'.
pub fn tell(
    rt: &HostRuntime,
    refusal: Refusal,
    given: Given,
    classes: &[u32],
    lengths: &[u32],
) -> Result<(), Stopped> {
    print_answer(rt, Err(refusal))?;
    let mut page: Page<SENTENCE_BYTES> = Page::blank();
    begin_refusal(rt, &mut page, refusal.number, file_of(refusal.number));
    put_sentence(&mut page, refusal, given, Lists { classes, lengths });
    say(&page);
    Err(Stopped::Refused)
}

// Which argument names the file that a refusal is in; a rate is in none.
fn file_of(number: u32) -> usize {
    match number {
        2 | 11..=13 | 31..=38 => 1,
        3 | 30 => NO_FILE,
        _ => 2,
    }
}

fn put_sentence<const N: usize>(page: &mut Page<N>, refusal: Refusal, given: Given, list: Lists) {
    let capture = given.capture;
    match refusal.number {
        2 => of_count(page, capture, given.rate),
        11..=13 => of_packet(page, refusal, capture, given.table, list),
        30..=34 => of_header(page, refusal.number, capture),
        35..=38 => of_records(page, refusal, capture),
        _ => table_sentence(page, refusal, given.rows, given.table),
    }
}

// 2: records, of which each takes two events.
fn of_count<const N: usize>(page: &mut Page<N>, capture: &[u8], rate: u32) {
    let count = records::check(capture, rate).map_or(0, |scan| scan.records as u64);
    fill(
        page,
        b"the capture has # records; give it at most #.\n",
        &[count, MOST_RECORDS as u64],
    )
}

// 30 to 34.
fn of_header<const N: usize>(page: &mut Page<N>, number: u32, capture: &[u8]) {
    if number == 30 {
        return fill(
            page,
            b"the rate is 0; give the bytes that the line carries in a second, from 1 to #.\n",
            &[u32::MAX as u64],
        );
    }
    if capture.len() < HEADER_BYTES {
        return fill(
            page,
            b"of the # bytes of a file header the capture has #; give a whole capture.\n",
            &[HEADER_BYTES as u64, capture.len() as u64],
        );
    }
    of_layout(page, number, capture)
}

// 32 to 34: the magic number, the version and the link type.
fn of_layout<const N: usize>(page: &mut Page<N>, number: u32, capture: &[u8])
    requires { header_bytes ≤ length capture.now }
{
    let layout = layout_of(capture);
    let big = layout.big;
    match number {
        32 => fill(
            page,
            b"the capture begins with the bytes #, #, #, # and not with a magic number of the classic layout; save it as pcap, say with editcap -F pcap.\n",
            &[
                number_of(capture[0]),
                number_of(capture[1]),
                number_of(capture[2]),
                number_of(capture[3]),
            ],
        ),
        33 => fill(
            page,
            b"the capture is of version #.# (byte 4); save it as version 2.4, say with editcap -F pcap.\n",
            &[long(half(capture, big, 4)), long(half(capture, big, 6))],
        ),
        _ => fill(
            page,
            b"the capture has link type # (byte 20); give one of link type 101, raw IP packets.\n",
            &[long(word(capture, big, 20))],
        ),
    }
}

// 35 to 38.
fn of_records<const N: usize>(page: &mut Page<N>, refusal: Refusal, capture: &[u8]) {
    if capture.len() < HEADER_BYTES {
        return;
    }
    let layout = layout_of(capture);
    let at = offset_of(capture, layout, wide(refusal.place));
    if capture.len() < at {
        return;
    }
    of_record(page, refusal, capture, layout, at)
}

// The record begins at this byte.
fn of_record<const N: usize>(
    page: &mut Page<N>,
    refusal: Refusal,
    capture: &[u8],
    layout: Layout,
    at: usize,
)
    requires { at ≤ length capture.now }
{
    let left = capture.len() - at;
    if left < RECORD_BYTES {
        return fill(
            page,
            b"record # (byte #) has # of the # bytes of a record's header; the capture is cut off there: give it whole, or without that record.\n",
            &[
                long(refusal.place),
                at as u64,
                left as u64,
                RECORD_BYTES as u64,
            ],
        );
    }
    of_begun(page, refusal, capture, layout, at)
}

// Its header is there.
fn of_begun<const N: usize>(
    page: &mut Page<N>,
    refusal: Refusal,
    capture: &[u8],
    layout: Layout,
    at: usize,
)
    requires { at + record_bytes ≤ length capture.now }
{
    let number = refusal.number;
    match number {
        36 => fill(
            page,
            b"record # (byte #) includes # bytes of a packet, of which # are there; the capture is cut off there: give it whole, or without that record.\n",
            &[
                long(refusal.place),
                at as u64,
                included(capture, layout, at) as u64,
                (capture.len() - at - RECORD_BYTES) as u64,
            ],
        ),
        37 => of_ip(page, refusal.place, at, packet(capture, layout, at)),
        _ => fill(
            page,
            b"record # (byte #) is stamped # microseconds before the record above it; put records in the order of their stamps, say with reordercap.\n",
            &[
                long(refusal.place),
                at as u64,
                less(
                    stamp_above(capture, layout, refusal.place),
                    stamp(capture, layout, at),
                ),
            ],
        ),
    }
}

// 37, of the packet of the record that begins at this byte.
fn of_ip<const N: usize>(page: &mut Page<N>, place: u32, at: usize, packet: &[u8]) {
    if packet.len() < LEAST_HEADER {
        return fill(
            page,
            b"record # (byte #) includes # of the # bytes of an IPv4 header; leave it out, or capture more of each packet.\n",
            &[
                long(place),
                at as u64,
                packet.len() as u64,
                LEAST_HEADER as u64,
            ],
        );
    }
    let first = packet[0];
    if first / 16 != 4 {
        return fill(
            page,
            b"record # (byte #) has a packet of IP version #; leave it out, since packets are IPv4.\n",
            &[long(place), at as u64, number_of(first / 16)],
        );
    }
    fill(
        page,
        b"record # (byte #) has an IPv4 header of # words, where 5 are the least; leave it out.\n",
        &[long(place), at as u64, number_of(first % 16)],
    )
}

// The stamp of the record before this one; 0 where there is none.
fn stamp_above(capture: &[u8], layout: Layout, place: u32) -> u64 {
    if place == 0 {
        return 0;
    }
    let at = offset_of(capture, layout, wide(place) - 1);
    if headed(capture, at) {
        return stamp(capture, layout, at);
    }
    0
}

// By how much a number is more than another.
fn less(a: u64, b: u64) -> u64 {
    a.saturating_sub(b)
}
