// A fresh state of a class table: the refusals in their order, then every word in use.
ghost use Rattle.std.specs.Prelude.{◌≡◌, ◌≢◌, ◌≤◌, length, IfErr};
ghost use Rattle.input.specs.Limits.{most_rows};
ghost use Rattle.input.specs.Classes.{Table, tree_of};
ghost use Rattle.input.specs.Lent.{table_of};
ghost use Rattle.tables.specs.Answers.{arrays_of};
ghost use Rattle.live_rules.specs.Layout.{state_words};
ghost use Rattle.live_rules.specs.State.{fresh_live, tags_stored, heads_stored, counts_stored, stored};
ghost use Rattle.live_rules.specs.Outcomes.{Made};
ghost use Rattle.taking.specs.Taken.{left_of};
ghost use Rattle.live_box.specs.Calls.{done_of};

use arrays::{CountArrays, RowArrays, TreeArrays};
use input::Refusal;
use live_rules::STATE_WORDS;

// Of each row all that an event can change: zeros.
fn store_zeros(state: &mut [u64], n: usize)
    requires rows_few { n ≤ most_rows }
    requires state_room { state_words ≤ length state.old }
    ensures state_after { (table : Table) → state.new ≡ counts_stored n (fresh_live table)
        (heads_stored n (fresh_live table).rows (tags_stored n (fresh_live table).rows state.old)) }
    ensures state_len_unchanged { length state.new ≡ length state.old }
{
    let rows = RowArrays::zeros();
    storing::store_tags(state, n, &rows);
    storing::store_heads(state, n, &rows);
    storing::store_counts(state, n, &CountArrays::zeros());
}

// The fresh state of a table that was read as this tree. No packet is held, so no word of theirs is in use.
fn store_fresh(state: &mut [u64], identifiers: &[u32], tree: &TreeArrays)
    requires rows_few { length identifiers.now ≤ most_rows }
    requires state_room { state_words ≤ length state.old }
    ensures { (table : Table) → table.identifiers ≡ identifiers.now → arrays_of (tree_of table) ≡ tree.now
        → state.new ≡ stored (fresh_live table) state.old }
{
    let n = identifiers.len();
    storing::store_header(state, n, 0);
    storing::store_tree(state, n, identifiers, tree);
    store_zeros(state, n);
}

// A fresh state: 1, then 3, then what the table's own rows refuse; a refusal leaves the words as they are.
pub fn fresh(
    identifiers: &[u32],
    parent_identifiers: &[u32],
    shares: &[u32],
    state: &mut [u64],
) -> Result<(), Refusal>
    ensures numbered { IfErr result (λ refusal. refusal.number ≢ 0) }
    ensures made { Made (table_of identifiers.now parent_identifiers.now shares.now) state.old (left_of (done_of result) state.new) }
{
    tables::rows_refused(identifiers.len(), parent_identifiers.len(), shares.len())?;
    if state.len() < STATE_WORDS {
        return Err(tables::refusal(3, 0, 0));
    }
    let reading = tables::read_sized(identifiers, parent_identifiers, shares)?;
    store_fresh(state, identifiers, &reading.tree);
    Ok(())
}
