// The words that the definitions of captures and their code share: how a capture stores its numbers, and which class a packet goes to.
#![tactic(auto)]

// The highest byte of a number comes first, or the lowest; and the fractions of a second are nanoseconds, or microseconds.
#[derive(Clone, Copy)]
pub struct Layout {
    pub big: bool,
    pub nano: bool,
}

// The identifiers of the classes that packets are put in by their code points.
#[derive(Clone, Copy)]
pub struct Sorting {
    pub first: u32,
    pub second: u32,
    pub third: u32,
}
