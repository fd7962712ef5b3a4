// Class tables and reports as comma-separated lines, each ended by CR LF: reading a table's text, writing a table, and writing a report
// with its lags. A table's slices stand one by one, as the run and C are lent them.
#![tactic(auto)]

mod places;
mod reading;
mod scans;
mod writing;

pub use places::after;
pub use reading::{copy, read_rows, read_table};
pub use scans::unread;
pub use writing::{write_report, write_table};
