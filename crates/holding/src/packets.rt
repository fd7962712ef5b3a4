// The packets held: whether each is sound, and what each class's queue begins with.
ghost use Rattle.std.specs.Prelude.{◌≡◌, cond, ◌≤◌, ◌<◌, ◌^◌, eqb, length};
ghost use Rattle.input.specs.Limits.{most_rows};
ghost use Rattle.live_rules.specs.Limits.{most_held};
ghost use Rattle.live_rules.specs.Layout.{state_words};
ghost use Rattle.holding.specs.Packets.{fits, PacketsTested, Ranged, FirstsTold};

use crate::Firsts;
use input::{LEAST_BYTES, MOST_BYTES, MOST_ROWS, RowMarks};
use live_rules::{CLASSES_AT, LENGTHS_AT, NAMES_AT};

// A packet by its numbers: of a row that sends, with the bytes of a packet, its name from `least` on and below `limit`.
#[tactic(auto, unfolding(crate::specs::Packets::fits))]
fn fits(
    n: usize,
    senders: &RowMarks,
    least: u64,
    limit: u64,
    class: u64,
    length: u64,
    name: u64,
) -> bool
    requires { n ≤ most_rows }
    ensures { result ≡ fits n senders.now least limit class length name }
{
    let k = class as usize;
    k < n
        && senders[k]
        && LEAST_BYTES as u64 <= length
        && length <= MOST_BYTES as u64
        && least <= name
        && name < limit
}

// Whether the packets are of sending classes, with the bytes of a packet, and their names rise and stay below `limit`.
pub fn packets_sound(words: &[u64], m: usize, n: usize, senders: &RowMarks, limit: u64) -> bool
    requires { (m ≤ most_held) × (n ≤ most_rows) × (state_words ≤ length words.now) }
    ensures { PacketsTested words.now m n senders.now limit result }
{
    let mut least = 0;
    for i in 0..m {
        let name = words[NAMES_AT + i];
        if !fits(
            n,
            senders,
            least,
            limit,
            words[CLASSES_AT + i],
            words[LENGTHS_AT + i],
            name,
        ) {
            return false;
        }
        least = name + 1;
    }
    true
}

// A number where there was none before, else the one that was.
fn first(count: u32, old: u32, new: u64) -> u32
    requires { new < 2 ^ 32 }
    ensures { result ≡ cond (eqb count 0) new old }
{
    if count == 0 { new as u32 } else { old }
}

// A row that there can be, as an index.
fn row(class: u64) -> usize
    requires { class < most_rows }
    ensures { (result ≡ class) × (result < most_rows) }
{
    class as usize
}

// For each class how many packets it holds, and the first of them.
pub fn firsts_of(words: &[u64], m: usize) -> Firsts
    requires { (m ≤ most_held) × (state_words ≤ length words.now) × Ranged words.now m }
    ensures { FirstsTold words.now m result }
{
    let mut counts = [0u32; MOST_ROWS];
    let mut firsts = [0u32; MOST_ROWS];
    let mut sizes = [0u32; MOST_ROWS];
    for i in 0..m {
        let k = row(words[CLASSES_AT + i]);
        let count = counts[k];
        firsts[k] = first(count, firsts[k], words[NAMES_AT + i] + 1);
        sizes[k] = first(count, sizes[k], words[LENGTHS_AT + i]);
        counts[k] = count + 1;
    }
    Firsts {
        counts,
        words: firsts,
        sizes,
    }
}
