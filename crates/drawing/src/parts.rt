// The parts of a class, of its parent and of the line, in hundredths of a per cent. They are exact and cut, so the product of all shares
// on the way to the line is kept whole.
ghost use Rattle.std.specs.Prelude.{◌≡◌, ◌*◌, ◌^◌, ◌≤◌};
ghost use Rattle.input.specs.Limits.{whole, most_depth};
ghost use Rattle.input.specs.Classes.{Tree};
ghost use Rattle.drawing.specs.Parts as parts;
ghost use Rattle.drawing.specs.Stated.{PartOfParent, PartOfLine};

use input::{MOST_DEPTH, WHOLE};
use words::{long, word};

// Hundredths of a per cent in all of it.
pub const HUNDREDTHS: u64 = 10000;

// The parts that make a whole, as a long number.
const PARTS: u64 = WHOLE as u64;

#[tactic(auto, unfolding(crate::specs::Parts::of_parent))]
pub fn of_parent(share: u32) -> u64
    ensures { PartOfParent share result }
{
    HUNDREDTHS * long(share) / PARTS
}

// The part of the line that a row has, from the parents, depths and shares of all rows: slices, of any length, as whoever draws a table has them.
pub fn of_line(parents: &[u32], depths: &[u32], shares: &[u32], row: u32) -> u64
    ensures { PartOfLine parents.now depths.now shares.now row result }
{
    let steps = word(depths, row).min(MOST_DEPTH);
    let all = product(parents, shares, row, steps);
    (all / (PARTS as u128).pow(steps)) as u64
}

// The parts on the way up from a row, multiplied, and with the hundredths.
fn product(parents: &[u32], shares: &[u32], row: u32, steps: u32) -> u128
    requires { steps ≤ most_depth }
    ensures most { result ≤ parts.hundredths * whole ^ steps }
    ensures value { (tree : Tree) → tree.parents ≡ parents.now → tree.shares ≡ shares.now
        → result ≡ parts.hundredths * parts.product tree steps row }
{
    let mut product = HUNDREDTHS as u128;
    let mut at = row;
    for _ in 0..steps {
        let part = word(shares, at).min(WHOLE);
        product *= part as u128;
        at = word(parents, at);
    }
    product
}
