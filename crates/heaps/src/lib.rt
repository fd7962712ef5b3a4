// Heaps of the numbers 1 to 255, many over one pair of links: for each number the roots of its two sides, 0 where there is none. A
// number is in one heap at most, and no number in a heap comes before its root: the least is the root. Number 0 is in no heap; its
// left link is where a meld hangs its result.
#![tactic(auto)]

ghost use Rattle.std.specs.Prelude.{◌≡◌, ◌<◌, get_or};
ghost use Rattle.heaps.specs.Sizes.{most_members, most_heaps};
ghost use Rattle.heaps.specs.Order.{before};
ghost use Rattle.heaps.specs.Links.{lesser, other, hung, melded, root_of};
ghost use Rattle.heaps.specs.Kept.{links_in, forest_in, no_heaps};
ghost use Rattle.heaps.specs.Heaps.{joined, parted};

// The numbers, 0 among them.
pub const MEMBERS: usize = 256;

pub const HEAPS: usize = 512;

// For each number what it is ordered by: first its key, then its tie.
pub type Keys = [u64; MEMBERS];

pub type Ties = [u32; MEMBERS];

// For each heap its root, 0 where it is empty: a byte each, since the memory is fixed.
pub type Roots = [u8; HEAPS];

// For each number the root of its left or right side.
pub type Sides = [u8; MEMBERS];

// The root of each heap, and for each number the roots of its two sides.
#[derive(Clone, Copy)]
pub struct Heaps {
    pub roots: Roots,
    pub left: Sides,
    pub right: Sides,
}

// Whether x comes before y: its key is less, or as large and its tie is less.
fn comes_before(keys: &Keys, ties: &Ties, x: u8, y: u8) -> bool
    ensures { result ≡ before keys.now ties.now x y }
{
    (keys[x as usize], ties[x as usize]) < (keys[y as usize], ties[y as usize])
}

// The two in order.
#[tactic(auto, unfolding(crate::specs::Links::lesser, crate::specs::Links::other))]
fn in_order(keys: &Keys, ties: &Ties, a: u8, b: u8) -> (u8, u8)
    ensures first { result.0 ≡ lesser (before keys.now ties.now) a b }
    ensures second { result.1 ≡ other (before keys.now ties.now) a b }
{
    if comes_before(keys, ties, b, a) {
        (b, a)
    } else {
        (a, b)
    }
}

impl Heaps {
    // Every heap is empty.
    #[tactic(auto, unfolding(crate::specs::Kept::no_heaps))]
    pub fn empty() -> Heaps
        ensures { result ≡ no_heaps }
    {
        Heaps {
            roots: [0; HEAPS],
            left: [0; MEMBERS],
            right: [0; MEMBERS],
        }
    }

    // What a and b have is melded, and hangs to the left of 0. The lesser root comes on top; its left side goes to its right, and what was
    // on its right is melded with the other root and hangs to its left: so the next meld goes down the other side.
    fn hang(&mut self, keys: &Keys, ties: &Ties, a: u8, b: u8)
        ensures links_after { links_in self.new ≡ hung (before keys.now ties.now) most_members 0 a b (links_in self.old) }
        ensures roots_stay { self.new.roots ≡ self.old.roots }
    {
        let mut at: u8 = 0;
        let mut x = a;
        let mut y = b;
        for _turn in 0..MEMBERS {
            if x == 0 {
                self.left[at as usize] = y;
                return;
            }
            let (top, below) = in_order(keys, ties, x, y);
            x = self.right[top as usize];
            self.right[top as usize] = self.left[top as usize];
            self.left[at as usize] = top;
            y = below;
            at = top;
        }
    }

    // What a and b have, melded: its root.
    #[tactic(auto, unfolding(crate::specs::Links::root_of, crate::specs::Links::melded))]
    fn meld(&mut self, keys: &Keys, ties: &Ties, a: u8, b: u8) -> u8
        ensures root { result ≡ root_of (before keys.now ties.now) a b (links_in self.old) }
        ensures links_after { links_in self.new ≡ melded (before keys.now ties.now) a b (links_in self.old) }
        ensures roots_stay { self.new.roots ≡ self.old.roots }
    {
        if b == 0 {
            return a;
        }
        self.hang(keys, ties, a, b);
        self.left[0]
    }

    // What is on the two sides of k, melded: its root.
    fn meld_below(&mut self, keys: &Keys, ties: &Ties, k: u8) -> u8
        ensures root { result ≡ root_of (before keys.now ties.now)
            (get_or self.old.left k 0) (get_or self.old.right k 0) (links_in self.old) }
        ensures links_after { links_in self.new
            ≡ melded (before keys.now ties.now)
            (get_or self.old.left k 0) (get_or self.old.right k 0) (links_in self.old) }
        ensures roots_stay { self.new.roots ≡ self.old.roots }
    {
        let a = self.left[k as usize];
        let b = self.right[k as usize];
        self.meld(keys, ties, a, b)
    }

    // Number x joins heap h: what was in h, and x. It is to be in no heap, and then every other heap keeps what it has (Laws: joins).
    #[tactic(auto, unfolding(crate::specs::Heaps::joined, crate::specs::Links::bare))]
    pub fn insert(&mut self, keys: &Keys, ties: &Ties, h: usize, x: u8)
        requires { h < most_heaps }
        ensures { forest_in self.new ≡ joined (before keys.now ties.now) h x (forest_in self.old) }
    {
        self.left[x as usize] = 0;
        self.right[x as usize] = 0;
        self.roots[h] = self.meld(keys, ties, self.roots[h], x);
    }

    // The least number of heap h leaves it: which it is, 0 where the heap is empty. It is the root (Laws: first-of), and what else is in
    // h, and every other heap, stays (Laws: parts).
    #[tactic(auto, unfolding(crate::specs::Heaps::parted))]
    pub fn take(&mut self, keys: &Keys, ties: &Ties, h: usize) -> u8
        requires { h < most_heaps }
        ensures root { result ≡ get_or self.old.roots h 0 }
        ensures forest_after { forest_in self.new ≡ parted (before keys.now ties.now) h (forest_in self.old) }
    {
        let k = self.roots[h];
        if k == 0 {
            return 0;
        }
        self.roots[h] = self.meld_below(keys, ties, k);
        k
    }
}
