// How many rows are in use, and how many packets are held and were accepted.
ghost use Rattle.std.specs.Prelude.{◌≡◌, ◌&&◌, ◌≤◌, leb};
ghost use Rattle.std.proofs.Math.ListN as lists;
ghost use Rattle.input.specs.Limits.{most_rows};
ghost use Rattle.live_rules.specs.Limits.{most_held, most_accepted};
ghost use Rattle.live_rules.specs.Layout.{state_words};
ghost use Rattle.state.specs.Reading.{Counted};

use input::MOST_ROWS;
use live_rules::{ACCEPTED_WORD, HELD_AT, MOST_ACCEPTED, MOST_HELD, ROWS_WORD};

#[derive(Clone, Copy)]
pub struct Counts {
    pub rows: usize,
    pub packets: usize,
    pub accepted: u64,
}

fn are_few(rows: usize, packets: usize, accepted: u64) -> bool
    ensures { result ≡ (leb 1 rows && (leb rows most_rows && (leb packets most_held && (leb packets accepted && leb accepted most_accepted)))) }
{
    1 <= rows
        && rows <= MOST_ROWS
        && packets <= MOST_HELD
        && packets as u64 <= accepted
        && accepted <= MOST_ACCEPTED
}

// A word as a number of rows or packets.
fn count(word: u64) -> usize
    ensures { result ≡ word }
{
    word as usize
}

// The counts, where they are as many as there can be.
pub fn counts_in(words: &[u64]) -> Option<Counts>
    requires { state_words ≤ lists.length words.now }
    ensures { Counted words.now result }
{
    let rows = count(words[ROWS_WORD]);
    let packets = count(words[HELD_AT]);
    let accepted = words[ACCEPTED_WORD];
    if are_few(rows, packets, accepted) {
        return Some(Counts {
            rows,
            packets,
            accepted,
        });
    }
    None
}
