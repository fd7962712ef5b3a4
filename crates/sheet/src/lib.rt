// The dispatcher's sheet: the number of the promise on shares, worked out exactly in 64-bit words.
#![tactic(auto)]

ghost use Rattle.std.specs.Prelude.{◌≡◌, ◌+◌, ◌*◌, ◌%◌, ◌<◌, eqb};
ghost use Rattle.input.specs.Limits.{scale};
ghost use Rattle.sheet.specs.Paper.{figure, greatest, fraction, fitting, by_share, sum_of, with_ticks, stepped};
ghost use Rattle.sheet.specs.Answered.{terms, figure_of};
ghost use Rattle.sheet.specs.Paper as paper;
ghost use Rattle.sheet.specs.Stated.{Works, RoundsUp, Ticks, Divides};

mod fraction;

pub use fraction::Fraction;
use input::{PACKETS_A_STEP, SCALE, TICKS, TICKS_A_STEP, WHOLE};
use words::word;

// The greatest number that divides both, by Euclid: what divides two numbers divides the rest of one by the other. It counts no turns.
fn common(a: u64, b: u64) -> u64
    requires { 0 < b }
    ensures { result ≡ greatest a b b }
{
    let mut x = a;
    let mut y = b;
    while x != 0 {
        (x, y) = (y % x, x);
    }
    y
}

impl Fraction {
    fn lowest(numerator: u64, denominator: u64) -> Fraction
        requires { 0 < denominator }
        ensures { terms result ≡ paper.lowest (fraction numerator denominator) }
    {
        let by = common(numerator, denominator);
        Fraction {
            numerator: numerator / by,
            denominator: denominator / by,
        }
    }

    // The product with a over b, in lowest terms; none where it outgrows 64 bits.
    fn times(self, a: u64, b: u64) -> Option<Fraction>
        requires { 0 < b }
        ensures { figure_of result ≡ fitting (fraction (a * self.numerator) (b * self.denominator)) }
    {
        let numerator = a.checked_mul(self.numerator)?;
        let denominator = b.checked_mul(self.denominator)?;
        Some(Fraction::lowest(numerator, denominator))
    }

    // The sum over the least common denominator, in lowest terms.
    fn plus(self, part: Fraction) -> Option<Fraction>
        ensures { figure_of result ≡ fitting (sum_of (terms self) (terms part)) }
    {
        let by = common(self.denominator, part.denominator);
        let times = part.denominator / by;
        let crosswise = self.denominator / by;
        let one = self.numerator.checked_mul(times)?;
        let other = part.numerator.checked_mul(crosswise)?;
        let numerator = one.checked_add(other)?;
        let denominator = self.denominator.checked_mul(times)?;
        Some(Fraction::lowest(numerator, denominator))
    }

    // One step up from a row with this share, before its ticks; none over a share of 0.
    fn up_by_share(self, largest: u32, share: u32) -> Option<Fraction>
        ensures { figure_of result ≡ by_share largest share (figure (terms self)) }
    {
        if share == 0 {
            return None;
        }
        let part = Fraction::lowest(WHOLE as u64, share as u64);
        let packets = PACKETS_A_STEP as u64 * largest as u64;
        let more = packets.checked_mul(self.denominator)?;
        let numerator = self.numerator.checked_add(more)?;
        part.times(numerator, self.denominator)
    }

    fn plus_ticks(self, ticks: u64) -> Option<Fraction>
        ensures { figure_of result ≡ with_ticks ticks (figure (terms self)) }
    {
        self.plus(Fraction::lowest(ticks, TICKS as u64))
    }

    fn step(self, largest: u32, ticks: u64, share: u32) -> Option<Fraction>
        ensures { figure_of result ≡ stepped largest ticks share (figure (terms self)) }
    {
        self.up_by_share(largest, share)?.plus_ticks(ticks)
    }
}

// A fraction of bytes, rounded up to a whole byte; 0 for a denominator of 0, which no `Fraction` has.
pub fn whole_bytes(numerator: u64, denominator: u64) -> u64
    ensures { RoundsUp (figure (fraction numerator denominator)) result }
{
    shares::rounded_up(numerator, denominator)
}

// The figure after so many steps up from a row, from the row's own bytes, with as many ticks more at each step; none where the working
// outgrows 64 bits, or meets a share of 0. A word past the end of a slice counts as 0.
pub fn after<'a>(
    steps: u32,
    parents: &'a [u32],
    shares: &'a [u32],
    row: u32,
    largest: u32,
    own: u32,
    ticks: u64,
) -> Option<Fraction>
    ensures { Works steps parents.now shares.now row largest own ticks (figure_of result) }
{
    let mut figure = Fraction {
        numerator: own as u64,
        denominator: 1,
    };
    let mut at = row;
    for _ in 0..steps {
        figure = figure.step(largest, ticks, word(shares, at))?;
        at = word(parents, at);
    }
    Some(figure)
}

// The ticks of a step, where no class on the way finished more than so many packets.
pub fn ticks(packets: u32) -> u64
    ensures { Ticks packets result }
{
    packets as u64 + TICKS_A_STEP as u64
}

fn divides(share: u32) -> bool
    ensures { result ≡ eqb (scale % share) 0 }
{
    share != 0 && SCALE % share == 0
}

// Whether on so many steps up from a row every share divides the scale, so that the ticks can be left out. A word past the end of a slice
// counts as 0.
pub fn all_divide<'a>(steps: u32, parents: &'a [u32], shares: &'a [u32], row: u32) -> bool
    ensures { Divides steps parents.now shares.now row result }
{
    let mut here = row;
    for _ in 0..steps {
        if !divides(word(shares, here)) {
            return false;
        }
        here = word(parents, here);
    }
    true
}
