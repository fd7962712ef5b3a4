// One byte more of a table's text.
ghost use Rattle.std.specs.Prelude.{◌≡◌, suc, ◌<◌, ◌^◌};
ghost use Rattle.forms.specs.Faults as faults;

use forms::{Place, Scan};

const HEADING: [u8; 23] = *b"identifier,parent,share";

// The last of three fields, which are counted from 0.
const LAST_FIELD: u32 = 2;

#[tactic(auto, unfolding(forms::specs::Faults::after_heading, forms::specs::Bytes::table_heading, output::specs::Quoted::bytes_of))]
fn after_heading(read: u32, byte: u8) -> Place
    ensures { result ≡ faults.after_heading read byte }
{
    if let Some(expected) = HEADING.get(read as usize) {
        if *expected == byte {
            return Place::Heading(read + 1);
        }
        return Place::Fault(41);
    }
    match byte {
        b'\r' => Place::Return,
        b'\n' => Place::Fault(46),
        _ => Place::Fault(41),
    }
}

#[tactic(auto, unfolding(forms::specs::Faults::after_due, forms::specs::Faults::digit))]
fn after_due(field: u32, byte: u8) -> Place
    ensures { result ≡ faults.after_due field byte }
{
    match byte {
        b'0'..=b'9' => Place::Number {
            field,
            n: (byte - b'0') as u32,
        },
        _ => Place::Fault(42),
    }
}

#[tactic(auto, unfolding(forms::specs::Faults::after_digit))]
fn after_digit(field: u32, n: u32, d: u8) -> Place
    ensures { result ≡ faults.after_digit field n d }
{
    if n == 0 {
        return Place::Fault(43);
    }
    match u32::try_from(n as u64 * 10 + d as u64) {
        Ok(n) => Place::Number { field, n },
        Err(_) => Place::Fault(44),
    }
}

#[tactic(auto, unfolding(forms::specs::Faults::after_field))]
fn after_field(field: u32, byte: u8) -> Place
    ensures { result ≡ faults.after_field field byte }
{
    match byte {
        b',' if field < LAST_FIELD => Place::Due(field + 1),
        b'\r' if field >= LAST_FIELD => Place::Return,
        b',' | b'\r' => Place::Fault(45),
        b'\n' => Place::Fault(46),
        _ => Place::Fault(42),
    }
}

#[tactic(auto, unfolding(forms::specs::Faults::after_number, forms::specs::Faults::digit))]
fn after_number(field: u32, n: u32, byte: u8) -> Place
    ensures { result ≡ faults.after_number field n byte }
{
    match byte {
        b'0'..=b'9' => after_digit(field, n, byte - b'0'),
        _ => after_field(field, byte),
    }
}

#[tactic(auto, unfolding(forms::specs::Faults::after_return))]
fn after_return(byte: u8) -> Place
    ensures { result ≡ faults.after_return byte }
{
    if byte == b'\n' {
        return Place::Due(0);
    }
    Place::Fault(46)
}

#[tactic(auto, unfolding(forms::specs::Faults::place_after))]
fn place_after(place: Place, byte: u8) -> Place
    ensures { result ≡ faults.place_after place byte }
{
    match place {
        Place::Heading(read) => after_heading(read, byte),
        Place::Due(field) => after_due(field, byte),
        Place::Number { field, n } => after_number(field, n, byte),
        Place::Return => after_return(byte),
        Place::Fault(number) => Place::Fault(number),
    }
}

// One line more where LF follows its CR.
#[tactic(auto, unfolding(forms::specs::Faults::lines_after))]
fn lines_after(lines: u64, place: Place, byte: u8) -> u64
    requires { suc lines < 2 ^ 64 }
    ensures { result ≡ faults.lines_after lines place byte }
{
    match place {
        Place::Return if byte == b'\n' => lines + 1,
        _ => lines,
    }
}

// The number of a field, as far as it is read.
#[tactic(auto, unfolding(forms::specs::Faults::number_after))]
fn number_after(field: u32, before: u32, place: Place) -> u32
    ensures { result ≡ faults.number_after field before place }
{
    match place {
        Place::Number { field: at, n } if at == field => n,
        _ => before,
    }
}

// The scan with one byte more.
#[tactic(auto, unfolding(forms::specs::Faults::after))]
pub fn after(scan: Scan, byte: u8) -> Scan
    requires { suc scan.lines < 2 ^ 64 }
    ensures { result ≡ faults.after scan byte }
{
    let place = place_after(scan.place, byte);
    Scan {
        lines: lines_after(scan.lines, scan.place, byte),
        place,
        first: number_after(0, scan.first, place),
        second: number_after(1, scan.second, place),
        third: number_after(2, scan.third, place),
    }
}
