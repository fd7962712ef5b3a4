// Reading a list of events as text: byte by byte, by a scan that is a value.
#![tactic(auto)]

mod bytes;
mod digits;
mod heading;
mod lines;
mod shown;

pub use digits::number;

// A field as far as it is read: nothing yet, a number, digits that come to more than a number may be, or something else.
#[derive(Clone, Copy)]
pub enum Field {
    Empty,
    Number(u32),
    Over,
    Other,
}

// A line as far as it is read: how many bytes of the heading it has, while it has no others; the commas, where 2 stands for two
// or more, as in the definitions (`Reading: commas_with`); the first two fields; and whether a CR was read last, which is part of the line only if no LF follows.
#[derive(Clone, Copy)]
pub struct Line {
    pub agreed: Option<usize>,
    pub commas: u32,
    pub first: Field,
    pub second: Field,
    pub held: bool,
}

// The numbers of a whole line.
#[derive(Clone, Copy)]
pub struct Row {
    pub first: u32,
    pub second: u32,
}

// What is wrong with a line, and in which field, from 1.
#[derive(Clone, Copy)]
pub enum Fault {
    NoEnd,
    WrongHeading,
    WrongCount,
    NoNumber(u32),
    TooLarge(u32),
}

// A file as far as it is read: its good lines that have ended, whether it stands within a line, that line, and what the byte read
// last has shown: nothing, a whole line of numbers, or what is wrong with the line.
#[derive(Clone, Copy)]
pub struct Scan {
    pub lines: u64,
    pub inside: bool,
    pub line: Line,
    pub found: Result<Option<Row>, Fault>,
}
