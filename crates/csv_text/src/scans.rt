// A whole text: its first fault, and the rows that it has.
ghost use Rattle.std.specs.Prelude.{◌≡◌, suc, ◌-◌, ◌<◌, ◌^◌, ⊤, set};
ghost use Rattle.input.specs.Lent.{table_of};
ghost use Rattle.forms.specs.Faults as faults;
ghost use Rattle.forms.specs.Outcomes.{table_over};
ghost use Rattle.csv_text.specs.Kept.{Room, Numbered, keeping};
ghost use Rattle.tables.specs.Judged.{Judged};

use crate::places::after;
use forms::{Place, Scan};
use input::Refusal;

// Nothing is read yet.
pub fn unread() -> Scan
    ensures { result ≡ faults.unread }
{
    Scan {
        lines: 0,
        place: Place::Heading(0),
        first: 0,
        second: 0,
        third: 0,
    }
}

// All bytes, one after the other.
pub fn scan_text(text: &[u8]) -> Scan
    ensures { result ≡ (faults.read_text text.now).scan }
{
    let mut scan = unread();
    for &byte in text {
        scan = after(scan, byte);
    }
    scan
}

// What is wrong where a text ends here.
#[tactic(auto, unfolding(forms::specs::Faults::fault_at))]
fn fault_at(place: Place) -> Option<u32>
    ensures { Numbered (faults.fault_at place) result }
{
    match place {
        Place::Due(0) | Place::Fault(0) => None,
        Place::Fault(number) => Some(number),
        _ => Some(47),
    }
}

// The line after so many, as far as a place can say.
#[tactic(auto, unfolding(forms::specs::Faults::line_of))]
fn line_of(lines: u64) -> u32
    ensures { result ≡ faults.line_of lines }
{
    u32::try_from(lines.saturating_add(1)).unwrap_or(u32::MAX)
}

// The fault of a text that ends here, and its line.
#[tactic(auto, unfolding(forms::specs::Faults::scan_refused))]
pub fn scan_refused(scan: Scan) -> Result<(), Refusal>
    ensures { Judged (faults.scan_refused scan) tt result }
{
    match fault_at(scan.place) {
        None => Ok(()),
        Some(number) => Err(Refusal {
            number,
            place: line_of(scan.lines),
            second: 0,
        }),
    }
}

// How many rows a text has whose so many lines have ended: one of them is the heading.
pub fn rows_of(lines: u64) -> u64
    ensures { result ≡ lines - 1 }
{
    lines.saturating_sub(1)
}

// Every row of a text, over the first words of the slices, which have room for all of them.
pub fn fill(text: &[u8], identifiers: &mut [u32], parents: &mut [u32], shares: &mut [u32])
    requires { Room text.now (table_of identifiers.old parents.old shares.old) }
    ensures { table_of identifiers.new parents.new shares.new
        ≡ table_over (faults.table_in text.now) (table_of identifiers.old parents.old shares.old) }
{
    let mut scan = unread();
    for &byte in text {
        scan = keep(scan, byte, identifiers, parents, shares);
    }
}

// The scan with one byte more; the row that ends with it goes to its place.
fn keep(
    scan: Scan,
    byte: u8,
    identifiers: &mut [u32],
    parents: &mut [u32],
    shares: &mut [u32],
) -> Scan
    requires { suc scan.lines < 2 ^ 64 }
    ensures { (result ≡ faults.after scan byte)
        × (table_of identifiers.new parents.new shares.new
        ≡ keeping scan byte (table_of identifiers.old parents.old shares.old)) }
{
    let next = after(scan, byte);
    if scan.lines == 0 {
        return next;
    }
    if scan.lines < next.lines {
        let row = (scan.lines - 1) as usize;
        store(identifiers, row, scan.first);
        store(parents, row, scan.second);
        store(shares, row, scan.third);
    }
    next
}

// The number at its place, where the slice has it. (A `get_mut` in place of the test did not prove.)
fn store(words: &mut [u32], place: usize, n: u32)
    ensures { words.new ≡ set words.old place n }
{
    if place < words.len() {
        words[place] = n;
    }
}
