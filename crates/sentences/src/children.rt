// What a sentence says of where a row stands in a table that may have faults: its depth, its children and their shares.
ghost use Rattle.std.specs.Prelude.{◌≡◌, suc, ◌<◌, ◌^◌, get_or, unwrap_or};
ghost use Rattle.input.specs.Limits.{most_rows};
ghost use Rattle.sentences.specs.Named as named;

use crate::templates::fill;
use crate::{Columns, HELD_ROWS};
use output::Page;
use words::{long, wide, word};

impl<'a> Columns<'a> {
    // How far below the line a row stands; a row whose parent is missing counts as one below it.
    pub fn depth_of(self, row: u32) -> u64 {
        let mut at = row;
        for depth in 0..HELD_ROWS as u64 {
            if at == 0 {
                return depth;
            }
            match self.parent_row(at) {
                Some(above) => at = above,
                None => return depth + 1,
            }
        }
        HELD_ROWS as u64
    }

    // The first row above this one with the identifier that it names as its parent's.
    #[tactic(auto, unfolding(crate::specs::Named::parent_row))]
    fn parent_row(self, row: u32) -> Option<u32>
        ensures { unwrap_or result row ≡ named.parent_row row self.entry.identifiers.now (get_or self.entry.parents.now row 0) }
    {
        if wide(row) >= self.identifiers.len() {
            return None;
        }
        let earlier = &self.identifiers[..wide(row)];
        let above = tables::row_of(earlier, word(self.parents, row))?;
        Some(above as u32)
    }

    // Whether a row is a child of another.
    #[tactic(auto, unfolding(crate::specs::Named::child_of))]
    fn is_child(self, row: u32, child: u32) -> bool
        ensures { result ≡ named.child_of row child self.entry.identifiers.now (get_or self.entry.parents.now child 0) }
    {
        row < child && self.parent_row(child) == Some(row)
    }

    // The share of a row if it is a child of another.
    fn share_under(self, row: u32, child: u32) -> u64
        ensures same { result ≡ named.share_under row child self.entry.identifiers.now (get_or self.entry.parents.now child 0)
            (get_or self.entry.shares.now child 0) }
        ensures fits { result < 2 ^ 32 }
    {
        if self.is_child(row, child) {
            long(word(self.shares, child))
        } else {
            0
        }
    }

    // The shares of a row's children, added up.
    #[tactic(auto, unfolding(crate::specs::Named::shares_under))]
    pub fn children_share(self, row: u32) -> u64
        ensures { result ≡ named.shares_under row self.entry.identifiers.now self.entry.parents.now self.entry.shares.now (suc most_rows) }
    {
        let mut sum = 0;
        for child in 0..HELD_ROWS as u32 {
            sum += self.share_under(row, child);
        }
        sum
    }

    // The children in the order of rows, each with its class and its share.
    pub fn put_children<const N: usize>(self, page: &mut Page<N>, row: u32) {
        let mut before = b':';
        for child in 0..HELD_ROWS as u32 {
            if self.is_child(row, child) {
                page.put_byte(before);
                let class = long(word(self.identifiers, child));
                fill(
                    page,
                    b" class # has #",
                    &[class, long(word(self.shares, child))],
                );
                before = b',';
            }
        }
    }
}
