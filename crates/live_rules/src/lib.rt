// The words that the live box's definitions and its code share: its limits, where its words stand, and what a call answers.
#![tactic(auto)]

// ── limits: the numbers of specs/Limits.antt ──

// Packets that a live box can hold.
pub const MOST_HELD: usize = 1024;

// Packets that a live box accepts in all.
pub const MOST_ACCEPTED: u64 = 2147483647;

// ── where the words of the lent state stand: the numbers of specs/Layout.antt ──

pub const ROWS_WORD: usize = 0;

pub const ACCEPTED_WORD: usize = 1;

pub const IDENTIFIERS_AT: usize = 256;

pub const PARENTS_AT: usize = 512;

pub const DEPTHS_AT: usize = 768;

pub const SHARES_AT: usize = 1024;

pub const STARTS_AT: usize = 1280;

pub const FINISHES_AT: usize = 1536;

pub const VIRTUALS_AT: usize = 1792;

pub const HEADS_AT: usize = 2048;

pub const HEAD_LENGTHS_AT: usize = 2304;

pub const HEAD_CLASSES_AT: usize = 2560;

pub const BYTES_AT: usize = 2816;

pub const HELD_AT: usize = 3072;

pub const SINCE_AT: usize = 3328;

pub const PARENT_SINCE_AT: usize = 3584;

pub const CLASSES_AT: usize = 3840;

pub const LENGTHS_AT: usize = 4864;

pub const NAMES_AT: usize = 5888;

pub const STATE_WORDS: usize = 6912;

// ── what a call answers ──

// An answer as five words, as the definitions (`Outcomes`) and the printed answer have it: number 0 where the event is taken, else the refusal;
// how many packets went on the line, none or one, and the name of that one, else 0. In code it is a `Result`.
#[derive(Clone, Copy)]
pub struct LiveAnswer {
    pub number: u32,
    pub place: u32,
    pub second: u32,
    pub count: u32,
    pub packet: u32,
}
