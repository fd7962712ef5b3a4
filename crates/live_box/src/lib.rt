// The calls of a live box, over words that the caller lends and keeps: a fresh state, one event, and the report.
#![tactic(auto)]

mod making;
mod meeting;
mod telling;

pub use making::fresh;
pub use meeting::event;
pub use telling::report;
