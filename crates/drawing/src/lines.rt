// The lines of a drawn tree, in columns.
ghost use Rattle.std.specs.Prelude.{◌≤◌};

use crate::order::following;
use crate::parts::{HUNDREDTHS, of_line, of_parent};
use output::Page;
use words::{long, word};

// How wide the columns are.
const CLASS: u64 = 22;

const SHARE: u64 = 5;

const OF_PARENT: u64 = 13;

const OF_LINE: u64 = 15;

// Puts the tree of an accepted table of so many rows, from the parents, depths and shares as it is read.
pub fn put_tree<const N: usize>(
    page: &mut Page<N>,
    identifiers: &[u32],
    parents: &[u32],
    depths: &[u32],
    shares: &[u32],
    rows: u32,
) {
    page.put_text(b"class                 share  % of parent  % of the line\n");
    let mut next = Some(0);
    for _ in 0..rows {
        let Some(row) = next else { return };
        put_class(page, word(depths, row), word(identifiers, row));
        let part = of_line(parents, depths, shares, row);
        put_parts(page, row, word(shares, row), part);
        page.put_byte(b'\n');
        next = following(parents, rows, row);
    }
}

// The identifier, two blanks to the right for each step of depth.
fn put_class<const N: usize>(page: &mut Page<N>, depth: u32, identifier: u32) {
    let indent = 2 * long(depth);
    put_blanks(page, indent);
    page.put_word(identifier);
    put_blanks(
        page,
        CLASS.saturating_sub(indent + digits(long(identifier))),
    );
}

// The share and the two parts; of the line itself only that it is all of it.
fn put_parts<const N: usize>(page: &mut Page<N>, row: u32, share: u32, part: u64) {
    if row == 0 {
        put_blanks(page, SHARE + OF_PARENT);
        put_hundredths(page, HUNDREDTHS, OF_LINE);
        return;
    }
    put_blanks(page, SHARE.saturating_sub(digits(long(share))));
    page.put_word(share);
    put_hundredths(page, of_parent(share), OF_PARENT);
    put_hundredths(page, part, OF_LINE);
}

// Hundredths of a per cent as per cent, at the right of a column. No class has no part at all.
fn put_hundredths<const N: usize>(page: &mut Page<N>, part: u64, width: u64) {
    if part == 0 {
        put_blanks(page, width.saturating_sub(6));
        page.put_text(b"< 0.01");
        return;
    }
    put_blanks(page, width.saturating_sub(digits(part / 100) + 3));
    page.put_number(part / 100);
    page.put_byte(b'.');
    page.put_number(part / 10 % 10);
    page.put_number(part % 10);
}

// So many blanks.
fn put_blanks<const N: usize>(page: &mut Page<N>, count: u64) {
    for _ in 0..count {
        page.put_byte(b' ');
    }
}

// How many digits a number of up to five has.
fn digits(n: u64) -> u64
    ensures { result ≤ 5 }
{
    match n {
        0..=9 => 1,
        10..=99 => 2,
        100..=999 => 3,
        1000..=9999 => 4,
        _ => 5,
    }
}
