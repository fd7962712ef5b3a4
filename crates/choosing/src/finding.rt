// How a row finds the child that it takes: by looking at its children one after another, or by its two heaps.
ghost use Rattle.std.specs.Prelude.{ℕ, List, ◌<◌, ◌≤◌};
ghost use Rattle.input.specs.Limits.{most_rows};
ghost use Rattle.input.specs.Classes.{Tree};
ghost use Rattle.input.specs.Lent.{tree_with};
ghost use Rattle.rules.specs.Box.{Rows, fresh};
ghost use Rattle.laws.specs.Sound.{Sound, Kid};
ghost use Rattle.arrays.specs.Arrays.{rows_of, rows_in, tree_in, Inside};
ghost use Rattle.choosing.specs.Filed.{AllListed, InHeaps, Keeps, Chooses, Found};
ghost use Rattle.choosing.specs.Keeping.{list_kept, heaps_kept};

use arrays::{RowArrays, TreeArrays};
use heaps::Heaps;
use input::RowWords;
use looking::Looking;
use rules::Choice;

// What the steps and the engines go by: any way to find a child.
pub trait Finding: Drop {
    // How the children that wait are filed, but for the row aside, which is yet to be filed (0: none is); the second has the class of each head.
    ghost filed: { Self → Tree → (ℕ → ℕ) → Rows → ℕ → Type 0 };

    // Before the first event.
    fn open(count: usize, tree: &TreeArrays) -> Self
        requires count_nonzero { 0 < count }
        requires count_le_most_rows { count ≤ most_rows }
        requires inside { Inside tree.now.parents }
        ensures { (ids : List ℕ) (class_of : ℕ → ℕ) → filed result (tree_in count ids tree.now) class_of fresh.rows 0 };

    // Row r is filed with those that wait at its parent p.
    fn file(&mut self, rows: &RowArrays, p: usize, r: usize)
        requires p_lt_most_rows { p < most_rows }
        requires r_lt_most_rows { r < most_rows }
        ensures { (tree : Tree) (class_of : ℕ → ℕ) → Sound tree → Kid tree p r
            → filed self.old tree class_of (rows_in rows.now) r
            → filed self.new tree class_of (rows_in rows.now) 0 };

    // What the choice of row p comes to, which has no head.
    fn find(&mut self, rows: &RowArrays, p: usize) -> Choice
        requires { (tree : Tree) × (class_of : ℕ → ℕ) × Chooses (filed self.old) tree class_of (rows_in rows.now) p }
        ensures { (tree : Tree) (class_of : ℕ → ℕ)
            → Chooses (filed self.old) tree class_of (rows_in rows.now) p
            → Found (filed self.new) tree class_of (rows_in rows.now) p result.child result.time };

    // What a step does to the rows leaves those that wait filed.
    ghost keeps: { (self : Self) → Keeps (filed self) };
}

// A way that goes by parents, tags and heads alone: `open` promises for any depths and shares, `file` for any lengths and classes of the heads.
// Its members are named as `Finding`'s, and the `impl` below makes those of them.
pub trait FindingByTags: Drop {
    ghost filed: { Self → Tree → (ℕ → ℕ) → Rows → ℕ → Type 0 };

    fn open(count: usize, parents: &RowWords) -> Self
        requires count_nonzero { 0 < count }
        requires count_le_most_rows { count ≤ most_rows }
        requires inside { Inside parents.now }
        ensures { (ids depths shares : List ℕ) (class_of : ℕ → ℕ)
            → filed result (tree_with count ids parents.now depths shares) class_of fresh.rows 0 };

    fn file(&mut self, rows: &RowArrays, p: usize, r: usize)
        requires p_lt_most_rows { p < most_rows }
        requires r_lt_most_rows { r < most_rows }
        ensures { (tree : Tree) (class_of : ℕ → ℕ) (lengths classes : List ℕ) → Sound tree → Kid tree p r
            → filed self.old tree class_of (rows_of rows.now.starts rows.now.finishes rows.now.virtuals rows.now.heads lengths classes) r
            → filed self.new tree class_of (rows_of rows.now.starts rows.now.finishes rows.now.virtuals rows.now.heads lengths classes) 0 };

    fn find(&mut self, rows: &RowArrays, p: usize) -> Choice
        requires { (tree : Tree) × (class_of : ℕ → ℕ) × Chooses (filed self.old) tree class_of (rows_in rows.now) p }
        ensures { (tree : Tree) (class_of : ℕ → ℕ)
            → Chooses (filed self.old) tree class_of (rows_in rows.now) p
            → Found (filed self.new) tree class_of (rows_in rows.now) p result.child result.time };

    ghost keeps: { (self : Self) → Keeps (filed self) };
}

impl<W: FindingByTags> Finding for W {
    ghost filed = { W.FindingByTags.filed };

    ghost keeps = { W.FindingByTags.keeps };

    fn open(count: usize, tree: &TreeArrays) -> W {
        <W as FindingByTags>::open(count, &tree.parents)
    }

    fn file(&mut self, rows: &RowArrays, p: usize, r: usize) {
        <W as FindingByTags>::file(self, rows, p, r)
    }

    fn find(&mut self, rows: &RowArrays, p: usize) -> Choice {
        <W as FindingByTags>::find(self, rows, p)
    }
}

impl FindingByTags for Looking {
    ghost filed = { AllListed };

    ghost keeps = { list_kept };

    fn open(count: usize, parents: &RowWords) -> Looking {
        Looking::list_children(count, parents)
    }

    // The list of all children needs no change.
    fn file(&mut self, rows: &RowArrays, p: usize, r: usize) {}

    fn find(&mut self, rows: &RowArrays, p: usize) -> Choice {
        self.choose(rows, p)
    }
}

impl FindingByTags for Heaps {
    ghost filed = { InHeaps };

    ghost keeps = { heaps_kept };

    fn open(count: usize, parents: &RowWords) -> Heaps {
        Heaps::empty()
    }

    // Row r joins the heaps of its parent, if it has a head.
    fn file(&mut self, rows: &RowArrays, p: usize, r: usize) {
        if rows.has_head(r) {
            waiting::add(rows, self, p, rows.virtuals[p], r as u8);
        }
    }

    fn find(&mut self, rows: &RowArrays, p: usize) -> Choice {
        waiting::choose(rows, self, p, rows.virtuals[p])
    }
}
