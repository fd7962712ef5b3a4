// Reads the class table on standard input, writes it again, and writes a report over its rows, by the routines of `csv_text`. It prints the
// number, place, second place and count of each answer, and what was written after it.
#![tactic(auto)]

use input::{MOST_ROWS, Refusal};

// As many bytes as the longest table that is accepted has.
const TABLE_BYTES: usize = 4371;

fn print(answer: Result<u32, Refusal>) {
    let numbers = match answer {
        Ok(count) => [0, 0, 0, count],
        Err(refusal) => [refusal.number, refusal.place, refusal.second, 0],
    };
    for number in numbers {
        io::print_decimal(1, number as u64);
        io::write_all(1, b" ");
    }
    io::write_all(1, b"\n");
}

// The first items, or all where there are no more.
fn first<T>(items: &[T], count: u32) -> &[T] {
    &items[..items.len().min(count as usize)]
}

// What an answer says was written.
fn print_written(answer: Result<u32, Refusal>, text: &[u8]) {
    print(answer);
    io::write_all(1, first(text, answer.unwrap_or(0)));
}

fn write(identifiers: &[u32], parents: &[u32], shares: &[u32]) {
    let mut text = [0u8; TABLE_BYTES];
    let written = csv_text::write_table(identifiers, parents, shares, &mut text);
    print_written(written, &text);
}

// The largest numbers and the least lag in row 0, and smaller ones after it.
fn report(identifiers: &[u32]) {
    let mut text = [0u8; TABLE_BYTES];
    let words = [
        u64::MAX,
        u64::MAX,
        0,
        9,
        10,
        100,
        168000,
        336000,
        0,
        1,
        0,
        84000,
        252000,
        0,
        1,
    ];
    let lags = [i64::MIN, -42000, i64::MAX];
    let written = csv_text::write_report(identifiers, &words, &lags, &mut text);
    print_written(written, &text);
}

fn main() {
    let mut text = [0u8; TABLE_BYTES];
    let size = io::read_full(0, &mut text);
    let mut identifiers = [0u32; MOST_ROWS];
    let mut parents = [0u32; MOST_ROWS];
    let mut shares = [0u32; MOST_ROWS];
    let read = csv_text::read_table(&text, size, &mut identifiers, &mut parents, &mut shares);
    print(read);
    let count = read.unwrap_or(0);
    let identifiers = first(&identifiers, count);
    write(identifiers, first(&parents, count), first(&shares, count));
    report(identifiers);
}
