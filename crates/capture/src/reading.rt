// The records of a capture that is not refused.
ghost use Rattle.std.specs.Prelude.{◌≡◌, true, ℕ, ◌+◌, ◌≤◌, ◌<◌, ◌^◌, length, get_or};
ghost use Rattle.pcap.specs.Headers.{record_bytes};

use pcap::Sorting;
use records::RECORD_BYTES;

// Reads the records as arrivals, over the first words of three slices, and answers how many there are; 0, as of a capture without any, where the
// capture is refused or a slice is too short.
pub fn read_records(
    capture: &[u8],
    sorting: Sorting,
    rate: u32,
    stamps: &mut [u64],
    classes: &mut [u32],
    lengths: &mut [u32],
) -> usize
    ensures { (result ≤ length stamps.new) × ((k : ℕ) → k < result → get_or stamps.new k 0 < 2 ^ 53) }
{
    let Ok(scan) = records::check(capture, rate) else {
        return 0;
    };
    let count = scan.records;
    if stamps.len() < count || classes.len() < count || lengths.len() < count {
        return 0;
    }
    records::read(
        capture,
        scan.layout,
        sorting,
        count,
        stamps,
        classes,
        lengths,
    );
    count
}

// Whether the header of a record that begins at this byte is there.
pub fn headed(capture: &[u8], at: usize) -> bool
    ensures { result ≡ true → at + record_bytes ≤ length capture.now }
{
    if capture.len() < at {
        return false;
    }
    RECORD_BYTES <= capture.len() - at
}

// A byte as a number.
pub fn number_of(byte: u8) -> u64 {
    byte as u64
}
