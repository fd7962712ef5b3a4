// A fraction, whose denominator is never 0.
ghost use Rattle.std.specs.Prelude.{◌<◌};

// A number of bytes as a fraction.
#[derive(Clone, Copy)]
pub struct Fraction {
    pub numerator: u64,
    pub denominator: u64,
    ghost some: { 0 < denominator },
}
