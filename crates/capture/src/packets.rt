// What a sentence says of a refused packet, 11 to 13: which record it is, and what to mend.
ghost use Rattle.std.specs.Prelude.{◌<◌, ◌^◌};

use crate::reading::{headed, number_of};
use captures::MOST_RECORDS;
use input::{LEAST_BYTES, MOST_BYTES, Refusal};
use output::Page;
use records::{HEADER_BYTES, layout_of, offset_of, packet};
use sentences::{Columns, Lists, fill};
use tables::row_of;
use words::{long, wide, word};

// A packet: its record, the byte at which that begins, its event, and its class, length and code point.
#[derive(Clone, Copy)]
struct Packet {
    record: u64,
    byte: u64,
    event: u64,
    class: u32,
    length: u32,
    point: u64,
}

pub fn of_packet<const N: usize>(
    page: &mut Page<N>,
    refusal: Refusal,
    capture: &[u8],
    table: Columns,
    list: Lists,
) {
    let record = first_refused(refusal.number, table, list);
    let at = offset(capture, record);
    let named = Packet {
        record: long(record),
        byte: at as u64,
        event: long(refusal.place),
        class: word(list.classes, record),
        length: word(list.lengths, record),
        point: code_point(capture, at),
    };
    put_sentence(page, refusal.number, named, table.identifiers)
}

// The first record that this number refuses is the one that was refused: packets arrive in the order of their records, and finishes are not
// refused.
fn first_refused(number: u32, table: Columns, list: Lists) -> u32 {
    let most = MOST_RECORDS as u32;
    for record in 0..most {
        let class = word(list.classes, record);
        if refuses(number, table, class, word(list.lengths, record)) {
            return record;
        }
    }
    most
}

// Whether this number refuses a packet, where no other did.
fn refuses(number: u32, table: Columns, class: u32, length: u32) -> bool {
    match number {
        11 => row_of(table.identifiers, class).is_none(),
        12 => sends_not(table, class),
        _ => no_packet(class, length),
    }
}

// Whether the class is the line itself or has classes below it.
fn sends_not(table: Columns, class: u32) -> bool {
    row_of(table.identifiers, class) == Some(0) || row_of(table.parents, class).is_some()
}

// Whether the class is none, or the length no packet's.
fn no_packet(class: u32, length: u32) -> bool {
    class == 0 || length < LEAST_BYTES || MOST_BYTES < length
}

// The byte at which this record begins.
fn offset(capture: &[u8], record: u32) -> usize {
    if capture.len() < HEADER_BYTES {
        return 0;
    }
    offset_of(capture, layout_of(capture), wide(record))
}

// The code point of the record that begins at this byte.
fn code_point(capture: &[u8], at: usize) -> u64 {
    if capture.len() < HEADER_BYTES {
        return 0;
    }
    if headed(capture, at) {
        return point_of(packet(capture, layout_of(capture), at));
    }
    0
}

fn point_of(packet: &[u8]) -> u64 {
    if packet.len() < 2 {
        return 0;
    }
    number_of(packet[1] / 4)
}

fn put_sentence<const N: usize>(
    page: &mut Page<N>,
    number: u32,
    named: Packet,
    identifiers: &[u32],
) {
    match number {
        11 => fill(
            page,
            b"record # (byte #), event # of the list, is for class #, which no row has; name a class of the table for code point #.\n",
            &[
                named.record,
                named.byte,
                named.event,
                long(named.class),
                named.point,
            ],
        ),
        12 => {
            let row = row_of(identifiers, named.class).unwrap_or(identifiers.len());
            not_sending(page, named, row)
        }
        _ => of_length(page, named),
    }
}

// 12, of a packet for the class of this row. A table's file has its heading in line 1, so row 0 is in line 2.
fn not_sending<const N: usize>(page: &mut Page<N>, named: Packet, row: usize)
    requires { row < 2 ^ 63 }
{
    if row == 0 {
        return fill(
            page,
            b"record # (byte #), event # of the list, is for class #, row 0 (line 2), which is the line itself; name a class with no class below it for code point #.\n",
            &[
                named.record,
                named.byte,
                named.event,
                long(named.class),
                named.point,
            ],
        );
    }
    fill(
        page,
        b"record # (byte #), event # of the list, is for class #, row # (line #), which has classes below it; name a class with no class below it for code point #.\n",
        &[
            named.record,
            named.byte,
            named.event,
            long(named.class),
            row as u64,
            row as u64 + 2,
            named.point,
        ],
    )
}

// 13.
fn of_length<const N: usize>(page: &mut Page<N>, named: Packet) {
    if named.class == 0 {
        return fill(
            page,
            b"record # (byte #), event # of the list, is for class 0, which is no class; name a class of the table for code point #.\n",
            &[named.record, named.byte, named.event, named.point],
        );
    }
    fill(
        page,
        b"record # (byte #), event # of the list, for class #, has original length #; a packet has # to # bytes.\n",
        &[
            named.record,
            named.byte,
            named.event,
            long(named.class),
            long(named.length),
            LEAST_BYTES as u64,
            MOST_BYTES as u64,
        ],
    )
}
