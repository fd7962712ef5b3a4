// What is said of an answer: a refusal, or the fault of a table's text, as one sentence for a person, with the file that it is in.
#![tactic(auto)]

mod children;
mod events;
mod faults;
pub mod lent;
mod naming;
mod refusals;
mod templates;

pub use events::{put_not_sending, put_packet_bytes, put_wrong_event};
pub use faults::fault_sentence;
use input::MOST_ROWS;
pub use naming::{is_input, put_name, put_refused};
pub use refusals::{sentence, table_sentence};
pub use templates::fill;

// The rows that a program holds: one more than a table may have, so that a row too many is seen.
pub const HELD_ROWS: usize = MOST_ROWS + 1;

// The bytes of a table's text that a program holds.
pub const HELD_BYTES: usize = 65536;

// Room for any sentence on a refusal: the name of a file that was read, less than 4,096 bytes, and what is said of all rows.
pub const SENTENCE_BYTES: usize = 16384;

// The columns of a class table.
#[derive(Clone, Copy)]
pub struct Columns<'a> {
    pub identifiers: &'a [u32],
    pub parents: &'a [u32],
    pub shares: &'a [u32],
}

// The columns of a list of events.
#[derive(Clone, Copy)]
pub struct Lists<'a> {
    pub classes: &'a [u32],
    pub lengths: &'a [u32],
}
