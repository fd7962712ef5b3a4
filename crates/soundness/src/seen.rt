// The identifiers that a walk has met, a bit for each, so that no two rows need be compared.
ghost use Rattle.std.specs.Prelude.{◌≡◌, false, ◌||◌, ℕ, ◌+◌, ◌^◌, ◌<◌, ◌≤◌, eqb, length};
ghost use Rattle.input.specs.Limits.{most_identifier};
ghost use Rattle.soundness.specs.Bits as bits;

use words::wide;

// Bits of a word, and words of the table: a bit for every identifier that there can be.
const WORD_BITS: u32 = 64;

pub const TABLE_WORDS: usize = 1024;

pub type Seen = [u64; TABLE_WORDS];

fn has_bit(word: u64, k: u32) -> bool
    requires { k < bits.word_bits }
    ensures { result ≡ eqb (bits.bit word k) 1 }
{
    (word >> k) % 2 == 1
}

fn with_bit(word: u64, k: u32) -> u64
    requires k_lt_word_bits { k < bits.word_bits }
    requires k_value { bits.bit word k ≡ 0 }
    ensures { result ≡ word + 2 ^ k }
{
    word + (1u64 << k)
}

// Whether an identifier was met.
pub fn met(table: &Seen, x: u32) -> bool
    requires { x ≤ most_identifier }
    ensures { result ≡ bits.met table.now x }
{
    has_bit(table[wide(x / WORD_BITS)], x % WORD_BITS)
}

// One is met that was not.
pub fn meet(table: &mut Seen, x: u32)
    requires identifier_small { x ≤ most_identifier }
    requires table_full { length table.old ≡ bits.table_words }
    requires not_met { bits.met table.old x ≡ false }
    ensures met_after { (y : ℕ) → bits.met table.new y ≡ (bits.met table.old y || eqb x y) }
    ensures table_stays_full { length table.new ≡ bits.table_words }
{
    let at = wide(x / WORD_BITS);
    table[at] = with_bit(table[at], x % WORD_BITS);
}
