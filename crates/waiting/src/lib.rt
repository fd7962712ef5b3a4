// A row's two heaps: its children that wait for their start, and those that are eligible. One is added, and the row chooses by them.
#![tactic(auto)]

ghost use Rattle.std.specs.Prelude.{◌≡◌, ℕ, ◌<◌, List};
ghost use Rattle.input.specs.Limits.{most_rows};
ghost use Rattle.heaps.specs.Kept.{forest_in};
ghost use Rattle.waiting.specs.Waiting.{started, ripens, ripened, later, time_of, child_of, rest_of, added};

use arrays::RowArrays;
use heaps::Heaps;
use input::{MOST_ROWS, RowLongs};
use rules::Choice;

// Whether k is a child, not 0, which is an empty heap's root, and its start is at most v.
#[tactic(auto, unfolding(crate::specs::Waiting::started))]
fn started(starts: &RowLongs, v: u64, k: u8) -> bool
    ensures { result ≡ started starts.now v k }
{
    k != 0 && starts[k as usize] <= v
}

// The first of p's children that wait for their start becomes eligible.
#[tactic(auto, unfolding(crate::specs::Waiting::ripens))]
fn ripen_one(rows: &RowArrays, heaps: &mut Heaps, p: usize)
    requires { p < most_rows }
    ensures { forest_in heaps.new
        ≡ ripens rows.now.starts rows.now.finishes rows.now.heads p (forest_in heaps.old) }
{
    let k = heaps.take(&rows.starts, &rows.heads, p);
    heaps.insert(&rows.finishes, &rows.heads, MOST_ROWS + p, k);
}

// Every child of p with a start of at most v becomes eligible. There are fewer children than turns.
fn ripen(rows: &RowArrays, heaps: &mut Heaps, p: usize, v: u64)
    requires { p < most_rows }
    ensures { forest_in heaps.new
        ≡ ripened most_rows rows.now.starts rows.now.finishes rows.now.heads p v (forest_in heaps.old) }
{
    for _turn in 0..MOST_ROWS {
        if !started(&rows.starts, v, heaps.roots[p]) {
            return;
        }
        ripen_one(rows, heaps, p);
    }
}

// v or the start of k, whichever is later; v where k is 0.
#[tactic(auto, unfolding(crate::specs::Waiting::later))]
fn later(starts: &RowLongs, v: u64, k: u8) -> u64
    ensures { result ≡ later starts.now v k }
{
    if k == 0 { v } else { v.max(starts[k as usize]) }
}

// The virtual time v of p, raised to the least start among its children where none is eligible.
#[tactic(auto, unfolding(crate::specs::Waiting::time_of))]
fn raise(rows: &RowArrays, heaps: &Heaps, p: usize, v: u64) -> u64
    requires { p < most_rows }
    ensures { result ≡ time_of rows.now.starts p v (forest_in heaps.now) }
{
    if heaps.roots[MOST_ROWS + p] == 0 {
        return later(&rows.starts, v, heaps.roots[p]);
    }
    v
}

// Row p, whose virtual time is v, chooses: its time is raised, all that have started by then become eligible, and the first of them leaves.
#[tactic(auto, using(crate::proofs::Turns::ready_at), unfolding(crate::specs::Waiting::child_of, crate::specs::Waiting::rest_of))]
pub fn choose(rows: &RowArrays, heaps: &mut Heaps, p: usize, v: u64) -> Choice
    requires { p < most_rows }
    ensures child { result.child
        ≡ child_of rows.now.starts rows.now.finishes rows.now.heads p v (forest_in heaps.old) }
    ensures time { result.time ≡ time_of rows.now.starts p v (forest_in heaps.old) }
    ensures forest_after { forest_in heaps.new
        ≡ rest_of rows.now.starts rows.now.finishes rows.now.heads p v (forest_in heaps.old) }
{
    let time = raise(rows, heaps, p, v);
    ripen(rows, heaps, p, time);
    let child = heaps.take(&rows.finishes, &rows.heads, MOST_ROWS + p);
    Choice { child, time }
}

// Child x of row p, which is in no heap, is added: it is eligible if its start is at most v, else it waits for it.
#[tactic(auto, unfolding(crate::specs::Waiting::added))]
pub fn add(rows: &RowArrays, heaps: &mut Heaps, p: usize, v: u64, x: u8)
    requires { p < most_rows }
    ensures { forest_in heaps.new
        ≡ added rows.now.starts rows.now.finishes rows.now.heads p v x (forest_in heaps.old) }
{
    if rows.starts[x as usize] <= v {
        heaps.insert(&rows.finishes, &rows.heads, MOST_ROWS + p, x);
    } else {
        heaps.insert(&rows.starts, &rows.heads, p, x);
    }
}
