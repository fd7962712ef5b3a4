// Which record each packet is.
ghost use Rattle.std.specs.Prelude.{◌≡◌, ℕ, suc, ◌+◌, ◌≤◌, ◌<◌, ◌^◌, min, length, get_or};
ghost use Rattle.input.specs.Events.{decode};
ghost use Rattle.rules.specs.Promise.{one_arrival};
ghost use Rattle.timetable.specs.Counted.{Counts};

use words::wide;

// For each place of a list, and for the one after its last, the record of a packet that arrives there: as many as arrived before it.
pub fn count_records(classes: &[u32], records: &mut [u32])
    requires { (length classes.now < length records.old) × (length classes.now < 2 ^ 32) }
    ensures { Counts classes.now records.old records.new }
{
    let mut arrived = 0;
    for (i, class) in classes.iter().enumerate() {
        records[i] = arrived;
        arrived = arrived_after(arrived, *class);
    }
    records[classes.len()] = arrived;
}

// How many packets have arrived after an event for this class.
#[tactic(auto, using(crate::proofs::Arrivals::none_arrives, crate::proofs::Arrivals::one_arrives))]
fn arrived_after(arrived: u32, class: u32) -> u32
    requires { suc arrived < 2 ^ 32 }
    ensures counted { (length : ℕ) → result ≡ arrived + one_arrival (decode class length) }
    ensures most { result ≤ suc arrived }
{
    if class == 0 {
        return arrived;
    }
    arrived + 1
}

// The record of the packet that arrives at this place of so many; past the last of them no more arrive.
pub fn record_at(records: &[u32], places: usize, place: u32) -> u32
    requires { places < length records.now }
    ensures { result ≡ get_or records.now (min place places) 0 }
{
    records[wide(place).min(places)]
}
