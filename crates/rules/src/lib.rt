// The words that the box's definitions and its code share: why a row chooses, and what its choice comes to.
#![tactic(auto)]

// The packet that was its head has just finished, or a packet has arrived below it while it had no head.
#[derive(Clone, Copy)]
pub enum Why {
    Finished,
    Arrived,
}

// The child that a row takes, and the row's virtual time, raised. Child 0 where none has a head, as the definitions have it (`Steps: pick`):
// the rows' arrays of heads, and the lent words, keep that 0.
#[derive(Clone, Copy)]
pub struct Choice {
    pub child: u8,
    pub time: u64,
}
