// Shares: which are allowed, and what a packet costs under one.
#![tactic(auto)]

ghost use Rattle.shares.specs.Stated.{Allows, RoundsUp, Charges};

use input::{LEAST_SHARE, SCALE, WHOLE};

// Whether a class may have this share.
pub fn allowed(share: u32) -> bool
    ensures { Allows share result }
{
    if share < LEAST_SHARE {
        return false;
    }
    share <= WHOLE
}

// A quotient rounded up; 0 for a denominator of 0.
pub fn rounded_up(numerator: u64, denominator: u64) -> u64
    ensures { RoundsUp numerator denominator result }
{
    if denominator == 0 {
        return 0;
    }
    let whole = numerator / denominator;
    if numerator % denominator == 0 {
        return whole;
    }
    whole + 1
}

// Ticks that a packet of this length costs a class with this share; a share of 0 is never charged, and costs nothing.
pub fn charge(length: u32, share: u32) -> u64
    ensures { Charges length share result }
{
    rounded_up(SCALE as u64 * length as u64, share as u64)
}
