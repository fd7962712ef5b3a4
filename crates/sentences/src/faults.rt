// What a sentence says of a fault of a table's text, after its number and its file: the line, what was found there, and what to mend.
ghost use Rattle.std.specs.Prelude.{◌≡◌, get_or, take};
ghost use Rattle.forms.specs.Faults.{read_text};
ghost use Rattle.sentences.specs.Named as named;

use crate::HELD_BYTES;
use crate::templates::fill;
use forms::{Place, Scan};
use input::{LEAST_ROWS, MOST_IDENTIFIER, MOST_ROWS, WHOLE};
use output::Page;

// The bytes of the longest table that a run accepts.
const MOST_TABLE_BYTES: u32 = 4371;

// How far a text is read: the bytes before its fault, and the scan of these.
#[derive(Clone, Copy)]
struct Stop {
    at: usize,
    scan: Scan,
}

// A fault with this number, one of the rules' own, in this line of a text.
pub fn fault_sentence<const N: usize>(page: &mut Page<N>, number: u32, line: u32, text: &[u8]) {
    match number {
        40 => fill(
            page,
            b"the text has more than # bytes; no table has more than #: give it # to # rows.\n",
            &[
                HELD_BYTES as u64,
                MOST_TABLE_BYTES as u64,
                LEAST_ROWS as u64,
                MOST_ROWS as u64,
            ],
        ),
        47 => cut_off(page, line as u64, text),
        _ => at_byte(page, number, line as u64, text),
    }
}

fn cut_off<const N: usize>(page: &mut Page<N>, line: u64, text: &[u8]) {
    if text.is_empty() {
        page.put_text(b"the text is empty; begin it with the heading identifier,parent,share.\n");
        return;
    }
    fill(
        page,
        b"the text ends inside line #; end it with CR LF, and see that no line is missing.\n",
        &[line],
    );
}

// 41 to 46, by the byte that is wrong and where it stands.
fn at_byte<const N: usize>(page: &mut Page<N>, number: u32, line: u64, text: &[u8]) {
    let stop = stopped(text);
    let byte = byte_at(text, stop.at);
    let at = counted(stop.scan.place);
    match number {
        41 => in_heading(page, at, text, byte),
        42 => in_field(page, line, at, byte),
        43 => fill(
            page,
            b"line # has a leading zero in field #; take it out.\n",
            &[line, at],
        ),
        44 => fill(
            page,
            b"line # has a number over # in field #; identifiers go up to # and shares up to #.\n",
            &[
                line,
                u32::MAX as u64,
                at,
                MOST_IDENTIFIER as u64,
                WHOLE as u64,
            ],
        ),
        45 => wrong_count(page, line, at, byte),
        _ => wrong_end(page, line, byte),
    }
}

// The text as far as it has no fault.
fn stopped(text: &[u8]) -> Stop
    ensures { result.scan ≡ (read_text (take result.at text.now)).scan }
{
    let mut scan = csv_text::unread();
    for (at, byte) in text.iter().enumerate() {
        let next = csv_text::after(scan, *byte);
        if faulty(next.place) {
            return Stop { at, scan };
        }
        scan = next;
    }
    Stop {
        at: text.len(),
        scan,
    }
}

#[tactic(auto, unfolding(crate::specs::Named::faulty))]
fn faulty(place: Place) -> bool
    ensures { result ≡ named.faulty place }
{
    matches!(place, Place::Fault(_))
}

// Which byte of the heading or which field a place is in, as a person counts them: from 1.
#[tactic(auto, unfolding(crate::specs::Named::counted))]
fn counted(place: Place) -> u64
    ensures { result ≡ named.counted place }
{
    match place {
        Place::Heading(read) => read as u64 + 1,
        Place::Due(field) | Place::Number { field, .. } => field as u64 + 1,
        Place::Return | Place::Fault(_) => 0,
    }
}

// The byte at this place; 0 past the end.
fn byte_at(text: &[u8], at: usize) -> u8
    ensures { result ≡ get_or text.now at 0 }
{
    text.get(at).copied().unwrap_or(0)
}

// 41, at this byte of the heading.
fn in_heading<const N: usize>(page: &mut Page<N>, at: u64, text: &[u8], byte: u8) {
    if text.starts_with(b"\xEF\xBB\xBF") {
        page.put_text(b"line 1 begins with a byte order mark; save the file without one.\n");
        return;
    }
    if wide_characters(text, byte) {
        page.put_text(b"line 1 is UTF-16; save the file as UTF-8.\n");
        return;
    }
    page.put_text(b"line 1 has ");
    put_found(page, byte);
    fill(
        page,
        b" at byte #, where the heading identifier,parent,share has not; ",
        &[at],
    );
    put_mend(page, byte, b"write the heading as it stands here");
    page.put_text(b".\n");
}

// Whether the text begins as UTF-16 does, or the wrong byte is one of those zeros that stand beside each letter.
fn wide_characters(text: &[u8], byte: u8) -> bool {
    byte == 0 || text.starts_with(b"\xFF\xFE") || text.starts_with(b"\xFE\xFF")
}

// 42: a field is empty, or something stands for its number.
fn in_field<const N: usize>(page: &mut Page<N>, line: u64, field: u64, byte: u8) {
    match byte {
        b'\n' | b'\r' | b',' => empty(page, line, field, byte),
        _ => no_digit(page, line, field, byte),
    }
}

// Where the first field is empty and no comma follows, so is the line.
fn empty<const N: usize>(page: &mut Page<N>, line: u64, field: u64, byte: u8) {
    if field == 1 && byte != b',' {
        fill(page, b"line # is empty; take it out.\n", &[line]);
        return;
    }
    fill(
        page,
        b"line # has nothing in field #; give it a number, or take the line out.\n",
        &[line, field],
    );
}

fn no_digit<const N: usize>(page: &mut Page<N>, line: u64, field: u64, byte: u8) {
    fill(page, b"line # has ", &[line]);
    put_found(page, byte);
    fill(page, b" in field #; ", &[field]);
    put_number_mend(page, byte);
    page.put_text(b".\n");
}

// 45: a comma after the last field, or the line's end before it.
fn wrong_count<const N: usize>(page: &mut Page<N>, line: u64, field: u64, byte: u8) {
    if byte == b',' {
        fill(
            page,
            b"line # has more than three fields; give it three: identifier, parent and share.\n",
            &[line],
        );
        return;
    }
    fill(
        page,
        b"line # ends after field #; give it three: identifier, parent and share.\n",
        &[line, field],
    );
}

// 46: LF without its CR, or CR without its LF.
fn wrong_end<const N: usize>(page: &mut Page<N>, line: u64, byte: u8) {
    if byte == b'\n' {
        fill(
            page,
            b"line # ends in LF alone; lines end in CR LF: save it with Windows line ends, or put it through unix2dos.\n",
            &[line],
        );
        return;
    }
    fill(
        page,
        b"line # has CR with no LF after it; a line ends in one CR and one LF: save it with Windows line ends.\n",
        &[line],
    );
}

// The byte that was found, by a name or by itself.
fn put_found<const N: usize>(page: &mut Page<N>, byte: u8) {
    match byte {
        b'\t' => page.put_text(b"a tab"),
        b'\n' => page.put_text(b"LF"),
        b'\r' => page.put_text(b"CR"),
        b' ' => page.put_text(b"a blank"),
        b'"' => page.put_text(b"a quote"),
        b',' => page.put_text(b"a comma"),
        b';' => page.put_text(b"a semicolon"),
        b'!'..=b'~' => page.put_text(&[b'"', byte, b'"']),
        _ => fill(page, b"byte #", &[byte as u64]),
    }
}

// What to do with a byte that stands for a number.
fn put_number_mend<const N: usize>(page: &mut Page<N>, byte: u8) {
    match byte {
        b'%' => fill(
            page,
            b"a share is so many parts of #, not per cent",
            &[WHOLE as u64],
        ),
        b'+' | b'-' => page.put_text(b"numbers have no sign"),
        b'.' => page.put_text(b"give it a whole number"),
        _ => put_mend(page, byte, b"give it a number in digits alone"),
    }
}

fn put_mend<const N: usize>(page: &mut Page<N>, byte: u8, otherwise: &[u8]) {
    match byte {
        b'\t' | b';' => page.put_text(b"separate the fields by commas"),
        b' ' => page.put_text(b"take it out"),
        b'"' => page.put_text(b"write the fields without quotes"),
        _ => page.put_text(otherwise),
    }
}
