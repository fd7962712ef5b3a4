// The words that the definitions of text and its code share: where a byte of a table's text stands, a text as far as it is read, and what
// came of reading rows.
#![tactic(auto)]

// Where the next byte of a table's text stands: after so many bytes of the heading, where a field begins, from 0, within a field
// that is this number so far, after the CR of a line, or behind a fault.
#[derive(Clone, Copy)]
pub enum Place {
    Heading(u32),
    Due(u32),
    Number { field: u32, n: u32 },
    Return,
    Fault(u32),
}

// A table's text as far as it is read: the lines that have ended, where the next byte stands, and the numbers of its line.
#[derive(Clone, Copy)]
pub struct Scan {
    pub lines: u64,
    pub place: Place,
    pub first: u32,
    pub second: u32,
    pub third: u32,
}

// What came of reading rows: how many the text has, and whether the slices had room for them.
#[derive(Clone, Copy)]
pub struct Counted {
    pub rows: u64,
    pub kept: bool,
}
