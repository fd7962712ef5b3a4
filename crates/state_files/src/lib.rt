// The state of a live box in a file: it is read whole, and replaced whole or not at all.
#![tactic(auto)]

mod loading;
mod replacing;
mod unwritable;

use files::Unread;
use live_rules::STATE_WORDS;
pub use loading::load_state;
pub use replacing::store_state;

// Bytes of a state's file: eight for each word, the lowest first.
pub const STATE_BYTES: usize = 8 * STATE_WORDS;

// Why the system does not take a state, as far as that is told apart; otherwise as for a file that is read.
#[derive(Clone, Copy)]
pub enum Unstored {
    Full,
    Forbidden,
    NoFolder,
    Other(Unread),
}
