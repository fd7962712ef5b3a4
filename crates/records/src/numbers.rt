// Numbers of a capture, of four bytes or two, in the byte order in which it stores them.
ghost use Rattle.std.specs.Prelude.{◌≡◌, ◌+◌, ◌≤◌, length};
ghost use Rattle.pcap.specs.Headers.{word_at, half_at};

// The number of the four bytes from this one on.
pub fn word(capture: &[u8], big: bool, at: usize) -> u32
    requires { at + 4 ≤ length capture.now }
    ensures { result ≡ word_at big capture.now at }
{
    let bytes = [
        capture[at],
        capture[at + 1],
        capture[at + 2],
        capture[at + 3],
    ];
    if big {
        return u32::from_be_bytes(bytes);
    }
    u32::from_le_bytes(bytes)
}

// The number of the two bytes from this one on.
pub fn half(capture: &[u8], big: bool, at: usize) -> u32
    requires { at + 2 ≤ length capture.now }
    ensures { result ≡ half_at big capture.now at }
{
    let bytes = [capture[at], capture[at + 1]];
    if big {
        return u16::from_be_bytes(bytes) as u32;
    }
    u16::from_le_bytes(bytes) as u32
}
