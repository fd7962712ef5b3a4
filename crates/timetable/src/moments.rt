// When a packet arrived, in microseconds after the first one.
ghost use Rattle.std.specs.Prelude.{◌≡◌, ◌-◌, get_or};

use listing::stamp_of;
use words::wide;

// When the packet of this record arrived, counted from the first stamp.
pub fn arrived_at(stamps: &[u64], record: u32) -> u64
    ensures { result ≡ get_or stamps.now «record» 0 - get_or stamps.now 0 0 }
{
    let first = stamp_of(stamps, 0);
    stamp_of(stamps, wide(record)).saturating_sub(first)
}
