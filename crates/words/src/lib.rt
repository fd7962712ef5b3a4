// What several crates use alike: numbers as indices, and a word or zero.
#![tactic(auto)]

ghost use Rattle.std.specs.Prelude.{◌≡◌, ◌<◌, ◌^◌, get_or};

// A number as an index. Beside what `as` does it says how large that is, which callers' proofs cite; so does the next.
pub fn wide(x: u32) -> usize
    ensures { (result ≡ x) × (result < 2 ^ 32) }
{
    x as usize
}

// A number as a longer one.
pub fn long(x: u32) -> u64
    ensures { (result ≡ x) × (result < 2 ^ 32) }
{
    x as u64
}

// The word at this place; 0 past the end.
pub fn word(words: &[u32], place: u32) -> u32
    ensures { result ≡ get_or words.now place 0 }
{
    words.get(place as usize).copied().unwrap_or(0)
}
