// Words as bytes, the lowest first: read from lent bytes, and written over the first of them. Straight code in each loop, which
// the compiler makes one load or one store a word.
#![tactic(auto)]

ghost use Rattle.std.specs.Prelude.{ℕ, ℤ, List, ◌≡◌, [], ◌∷◌, ◌+◌, ◌*◌, ◌/◌, ◌≤◌, ◌<◌, length, take, drop, map, replicate};
ghost use Rattle.std.proofs.lemmas.List.Edits.{sets};
ghost use Rattle.std.specs.Int.{w64};
ghost use Rattle.std.proofs.Common.{of_z, to_z, rules};
ghost use Rattle.rules.specs.Outcome.{over};
ghost use Rattle.octets.specs.Octets.{bytes_in, number_of, bytes_of, words_of, signed_bytes_of, signed_words_of};
ghost use Rattle.octets.specs.Numbers.{same_words, same_bytes, signed_words, signed_bytes};

// A word of so many bytes, and the number that its bytes are.
pub trait Word: Copy {
    const SIZE: usize;

    ghost SIZE: { ℕ };

    ghost number: { Self → ℕ };

    ghost word: { ℕ → Self };

    ghost all_read: { List ℕ → List Self };

    ghost all_bytes: { List Self → List ℕ };

    // The word that the bytes from a place on are.
    fn read(bytes: &[u8], at: usize) -> Self
        requires { at + SIZE ≤ length bytes.now }
        ensures { result ≡ word (number_of (take SIZE (drop at bytes.now))) };

    // The word's bytes, from a place on.
    fn put(self, bytes: &mut [u8], at: usize)
        requires { at + SIZE ≤ length bytes.old }
        ensures { bytes.new ≡ sets bytes.old at (bytes_in SIZE (number self)) };

    ghost some: { 0 < SIZE };

    ghost read_is: { (list : List ℕ) → all_read list ≡ map word (words_of SIZE list) };

    ghost bytes_is: { (list : List Self) → all_bytes list ≡ bytes_of SIZE (map number list) };
}

impl Word for u32 {
    const SIZE: usize = 4;

    ghost SIZE = { 4 };

    ghost number = { λ x. x };

    ghost word = { λ x. x };

    ghost all_read = { words_of 4 };

    ghost all_bytes = { bytes_of 4 };

    ghost some = { Prim.search rules };

    ghost read_is = { same_words 4 };

    ghost bytes_is = { same_bytes 4 };

    fn read(bytes: &[u8], at: usize) -> u32 {
        u32::from_le_bytes([bytes[at], bytes[at + 1], bytes[at + 2], bytes[at + 3]])
    }

    fn put(self, bytes: &mut [u8], at: usize) {
        bytes[at..at + 4].copy_from_slice(&self.to_le_bytes());
    }
}

impl Word for u64 {
    const SIZE: usize = 8;

    ghost SIZE = { 8 };

    ghost number = { λ x. x };

    ghost word = { λ x. x };

    ghost all_read = { words_of 8 };

    ghost all_bytes = { bytes_of 8 };

    ghost some = { Prim.search rules };

    ghost read_is = { same_words 8 };

    ghost bytes_is = { same_bytes 8 };

    fn read(bytes: &[u8], at: usize) -> u64 {
        u64::from_le_bytes([
            bytes[at],
            bytes[at + 1],
            bytes[at + 2],
            bytes[at + 3],
            bytes[at + 4],
            bytes[at + 5],
            bytes[at + 6],
            bytes[at + 7],
        ])
    }

    fn put(self, bytes: &mut [u8], at: usize) {
        bytes[at..at + 8].copy_from_slice(&self.to_le_bytes());
    }
}

impl Word for i64 {
    const SIZE: usize = 8;

    ghost SIZE = { 8 };

    ghost number = { of_z w64 };

    ghost word = { to_z w64 };

    ghost all_read = { signed_words_of };

    ghost all_bytes = { signed_bytes_of };

    ghost some = { Prim.search rules };

    ghost read_is = { signed_words };

    ghost bytes_is = { signed_bytes };

    fn read(bytes: &[u8], at: usize) -> i64 {
        u64::read(bytes, at).cast_signed()
    }

    fn put(self, bytes: &mut [u8], at: usize) {
        self.cast_unsigned().put(bytes, at);
    }
}

// All words of these bytes, over the first of `words`, which there is room for.
pub fn read_words<W: Word>(bytes: &[u8], words: &mut [W])
    requires { length bytes.now / W.SIZE ≤ length words.old }
    ensures { words.new ≡ over (W.all_read bytes.now) words.old }
{
    for i in 0..bytes.len() / W::SIZE {
        words[i] = W::read(bytes, W::SIZE * i);
    }
}

// All these words, over the first bytes, which there are enough of.
pub fn write_words<W: Word>(words: &[W], bytes: &mut [u8])
    requires { W.SIZE * length words.now ≤ length bytes.old }
    ensures { bytes.new ≡ over (W.all_bytes words.now) bytes.old }
{
    for (i, word) in words.iter().enumerate() {
        word.put(bytes, W::SIZE * i);
    }
}

// The first n bytes are 0, of at least as many.
pub fn clear(bytes: &mut [u8], n: usize)
    requires { n ≤ length bytes.old }
    ensures { bytes.new ≡ over (replicate n 0) bytes.old }
{
    bytes[..n].fill(0);
}
