// Reading a list of events into columns.
ghost use Rattle.std.specs.Prelude.{◌≡◌, set, take};
ghost use Rattle.text.specs.Reading.{unread};
ghost use Rattle.files.specs.Columns as columns;

use crate::Stopped;
use crate::arguments::argument;
use crate::opening::open;
use crate::unreadable::{cannot_open, cannot_read};
use std::io;
use std::io::Read;
use std::rt::{Env, Files};
use text::Scan;

// Reads the file that an argument names, and says what is wrong with it if something is; answers how many lines of numbers it has. The
// longest argument that the system passes has 131,071 bytes. Lines past the end of the columns are counted and not kept.
pub fn load(
    rt: &(impl Env + Files + Input),
    place: usize,
    first: &mut [u32],
    second: &mut [u32],
) -> Result<u64, Stopped>
    ensures { columns.Loads first.old second.old first.new second.new result }
{
    let mut name = [0u8; 131072];
    let length = argument(rt, place, &mut name);
    load_named(rt, &name[..length], first, second)
}

fn load_named(
    rt: &(impl Files + Input),
    name: &[u8],
    first: &mut [u32],
    second: &mut [u32],
) -> Result<u64, Stopped>
    ensures { columns.Loads first.old second.old first.new second.new result }
{
    match read_file(rt, name, first, second) {
        Ok(scan) => judged(name, scan),
        Err(error) => Err(cannot_open(name, error)),
    }
}

// What came of reading a file to its end.
#[tactic(auto, unfolding(crate::specs::Columns::judged))]
pub fn judged(name: &[u8], scan: Scan) -> Result<u64, Stopped>
    ensures { result ≡ columns.judged scan }
{
    match scan.finish() {
        Ok(()) => Ok(scan.lines.saturating_sub(1)),
        Err(fault) => Err(cannot_read(name, scan.lines, fault)),
    }
}

fn read_file(
    rt: &(impl Files + Input),
    name: &[u8],
    first: &mut [u32],
    second: &mut [u32],
) -> io::Result<Scan>
    ensures { columns.Reads unread first.old second.old first.new second.new result }
{
    let mut file = open(rt, name)?;
    read_all(&mut file, Scan::begin(), first, second)
}

// Reads to the end of the file. A loop has to end, and nothing says that a file does, so this one has a number of turns that no run uses
// up.
fn read_all(
    file: &mut impl Read,
    start: Scan,
    first: &mut [u32],
    second: &mut [u32],
) -> io::Result<Scan>
    ensures { columns.Reads start first.old second.old first.new second.new result }
{
    let mut scan = start;
    for _ in 0..u64::MAX {
        match read_some(file, scan, first, second)? {
            Some(next) => scan = next,
            None => return Ok(scan),
        }
    }
    Ok(scan)
}

// One read, of at most 65,536 bytes. Where it gives none, no more comes.
#[tactic(auto, unfolding(crate::specs::Columns::scan_after))]
pub fn read_some(
    file: &mut impl Read,
    scan: Scan,
    first: &mut [u32],
    second: &mut [u32],
) -> io::Result<Option<Scan>>
    ensures { columns.Filled (columns.columns_of scan first.old second.old)
        (columns.columns_of (columns.scan_after scan result) first.new second.new) }
{
    let mut buffer = [0u8; 65536];
    let size = file.read(&mut buffer)?;
    if size == 0 {
        return Ok(None);
    }
    Ok(Some(read_bytes(scan, &buffer[..size], first, second)))
}

// Reads these bytes.
fn read_bytes(scan: Scan, bytes: &[u8], first: &mut [u32], second: &mut [u32]) -> Scan
    ensures { columns.columns_of result first.new second.new
        ≡ columns.with_bytes (columns.columns_of scan first.old second.old) bytes.now }
{
    let mut scan = scan;
    for byte in bytes {
        scan = step(scan, *byte, first, second);
    }
    scan
}

// One byte, and the numbers of the line that it ends, if it ends one.
#[tactic(auto, unfolding(crate::specs::Columns::with_byte, crate::specs::Columns::keeping))]
fn step(scan: Scan, byte: u8, first: &mut [u32], second: &mut [u32]) -> Scan
    ensures { columns.columns_of result first.new second.new
        ≡ columns.with_byte (columns.columns_of scan first.old second.old) byte }
{
    let next = scan.feed(byte);
    if let Ok(Some(row)) = next.found {
        let place = row_of(next.lines);
        keep(first, place, row.first);
        keep(second, place, row.second);
    }
    next
}

// The place of the row that a file's last line holds.
fn row_of(lines: u64) -> usize
    ensures { result ≡ columns.row_of lines }
{
    lines.saturating_sub(2) as usize
}

// The number at its place, where the column has it. By `get_mut` the proof did not close.
pub fn keep(column: &mut [u32], place: usize, n: u32)
    ensures { column.new ≡ set column.old place n }
{
    if place < column.len() {
        column[place] = n;
    }
}

// The first of them, or all where there are no more.
pub fn first<T>(items: &[T], count: u64) -> &[T]
    ensures { result.now ≡ take count items.now }
{
    if count < items.len() as u64 {
        return &items[..count as usize];
    }
    items
}
