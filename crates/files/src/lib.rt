// Class tables, lists of events and captures in files: reading one, what is said where it cannot be read, printing, and how a program ends.
#![tactic(auto)]

mod arguments;
mod class_tables;
mod ending;
pub mod errors;
mod handing;
mod opening;
mod reading;
mod unlisted;
pub mod unreadable;
mod whole;
mod writing;

pub use arguments::{argument, argument_count};
pub use class_tables::{Table, load_table, say_fault};
pub use ending::{NO_FILE, begin_refusal, complain, end_with};
pub use handing::{STDERR_FILENO, hand_over, print, print_answer, print_lent, say};
pub use opening::{Opened, argument_is_input, input_twice, open, text_of, twice};
pub use reading::{first, judged, keep, load, read_some};
pub use unreadable::cannot_open;
pub use whole::{load_capture, load_text};

// Why a program stops: what it was given is refused, or it could not read, write or understand the call. It has said what is wrong.
#[derive(Clone, Copy)]
pub enum Stopped {
    Refused,
    Failed,
}

// Why the system does not give a file, as far as that is told apart; otherwise its number of the error.
#[derive(Clone, Copy)]
pub enum Unread {
    Missing,
    Folder,
    Forbidden,
    LongName,
    Other(u32),
}

// Why it does not take the results, likewise.
#[derive(Clone, Copy)]
pub enum Unwritten {
    Full,
    Closed,
    Other(u32),
}
