// One row: whether it is sound, by its own numbers and its parent's.
ghost use Rattle.std.specs.Prelude.{◌≡◌, cond, ◌≤◌, ◌<◌, eqb, get_or};
ghost use Rattle.input.specs.Limits.{most_rows};
ghost use Rattle.arrays.specs.Arrays.{Inside};
ghost use Rattle.live_rules.specs.Limits.{most_accepted};
ghost use Rattle.holding.specs.Row.{same_head, passed_on, most_at, tag_at};
ghost use Rattle.holding.specs.Rows.{senders_tested, inners_tested, tags_tested, sizes_tested, counts_tested, row_tested};

use crate::Walked;
use arrays::{CountArrays, RowArrays, TreeArrays};
use input::{MOST_BYTES, RowMarks, SCALE};
use shares::charge;
use words::{long, wide};

// ── the head ──

// A head, as the state's words have it: its packet's name + 1 and 0 where there is none, with that packet's length and class.
#[derive(Clone, Copy, PartialEq)]
struct Head {
    packet: u32,
    length: u32,
    class: u32,
}

const NO_HEAD: Head = Head {
    packet: 0,
    length: 0,
    class: 0,
};

fn head_at(rows: &RowArrays, r: usize) -> Head
    requires { r < most_rows }
    ensures { (result.packet ≡ get_or rows.now.heads r 0) × (result.length ≡ get_or rows.now.head_lengths r 0)
        × (result.class ≡ get_or rows.now.head_classes r 0) }
{
    Head {
        packet: rows.heads[r],
        length: rows.head_lengths[r],
        class: rows.head_classes[r],
    }
}

#[tactic(auto, unfolding(crate::specs::Row::same_head))]
fn is_same(head: Head, other: Head) -> bool
    ensures { result ≡ same_head head.packet head.length head.class other.packet other.length other.class }
{
    head == other
}

// A row's parent, as an index.
pub fn parent_of(tree: &TreeArrays, r: usize) -> usize
    requires row_inside { r < most_rows }
    requires parents_inside { Inside tree.now.parents }
    ensures { (result ≡ get_or tree.now.parents r 0) × (result < most_rows) }
{
    wide(tree.parents[r])
}

// Whether row t, a child of p, has a head and p has the same.
#[tactic(auto, unfolding(crate::specs::Row::passed_on))]
pub fn passed_on(rows: &RowArrays, t: usize, p: usize) -> bool
    requires { (t < most_rows) × (p < most_rows) }
    ensures { result ≡ passed_on t (get_or rows.now.heads t 0) (get_or rows.now.head_lengths t 0) (get_or rows.now.head_classes t 0)
        (get_or rows.now.heads p 0) (get_or rows.now.head_lengths p 0) (get_or rows.now.head_classes p 0) }
{
    t != 0 && rows.heads[t] != 0 && is_same(head_at(rows, p), head_at(rows, t))
}

// ── what a row holds ──

// The head that row r's own queue asks for: its first packet.
fn first_of(walked: &Walked, r: usize) -> Head
    requires { r < most_rows }
    ensures { (result.packet ≡ get_or walked.now.firsts.words r 0) × (result.length ≡ get_or walked.now.firsts.sizes r 0)
        × (result.class ≡ cond (eqb (get_or walked.now.firsts.words r 0) 0) 0 r) }
{
    let packet = walked.firsts.words[r];
    Head {
        packet,
        length: walked.firsts.sizes[r],
        class: if packet == 0 { 0 } else { r as u32 },
    }
}

// Where row r sends: whether it holds its queue, with that queue's first as its head, and has no virtual time.
#[tactic(auto, unfolding(crate::specs::Rows::senders_tested, crate::specs::Row::sender_test))]
fn sender_sound(
    senders: &RowMarks,
    rows: &RowArrays,
    counts: &CountArrays,
    walked: &Walked,
    r: usize,
) -> bool
    requires { r < most_rows }
    ensures { result ≡ senders_tested senders.now counts.now.held walked.now.firsts.counts rows.now.virtuals rows.now.heads
        rows.now.head_lengths rows.now.head_classes walked.now.firsts.words walked.now.firsts.sizes r }
{
    if !senders[r] {
        return true;
    }
    counts.held[r] == walked.firsts.counts[r]
        && is_same(head_at(rows, r), first_of(walked, r))
        && rows.virtuals[r] == 0
}

// Where row r does not send: whether it holds what its children hold, with the head of one of them or, where that is nothing, none.
#[tactic(auto, unfolding(crate::specs::Rows::inners_tested, crate::specs::Row::inner_test))]
fn inner_sound(
    senders: &RowMarks,
    rows: &RowArrays,
    counts: &CountArrays,
    walked: &Walked,
    r: usize,
) -> bool
    requires { r < most_rows }
    ensures { result ≡ inners_tested senders.now counts.now.held walked.now.sums walked.now.marks rows.now.heads rows.now.head_lengths
        rows.now.head_classes r }
{
    if senders[r] {
        return true;
    }
    if long(counts.held[r]) != walked.sums[r] {
        return false;
    }
    if counts.held[r] == 0 {
        return is_same(head_at(rows, r), NO_HEAD);
    }
    walked.marks[r]
}

// ── tags, sizes, counts ──

// The root has no tags; elsewhere the finish is the start with the head's charge, and without a head not before the start.
#[tactic(auto, unfolding(crate::specs::Rows::tags_tested, crate::specs::Row::tags_test))]
fn tags_sound(tree: &TreeArrays, rows: &RowArrays, r: usize) -> bool
    requires { r < most_rows }
    ensures { result ≡ tags_tested tree.now.shares rows.now.starts rows.now.finishes rows.now.heads rows.now.head_lengths r }
{
    let start = rows.starts[r];
    let finish = rows.finishes[r];
    if r == 0 {
        return start == 0 && finish == 0;
    }
    if finish < start {
        return false;
    }
    rows.heads[r] == 0 || finish - start == charge(rows.head_lengths[r], tree.shares[r])
}

// The most ticks that a tag can have at the level of a row with this head, once so many packets have left.
#[tactic(auto, unfolding(crate::specs::Row::most_at))]
fn most_at(left: u64, head: u32) -> u64
    requires { left ≤ most_accepted }
    ensures { result ≡ most_at left head }
{
    let packets = if head == 0 { left } else { left + 1 };
    SCALE as u64 * MOST_BYTES as u64 * packets
}

// The tag that counts at its level: the start of a row that waits, the finish of one that is taken or idle.
#[tactic(auto, unfolding(crate::specs::Row::tag_at))]
fn tag_at(rows: &RowArrays, r: usize, p: usize) -> u64
    requires { (r < most_rows) × (p < most_rows) }
    ensures { result ≡ tag_at (get_or rows.now.starts r 0) (get_or rows.now.finishes r 0) (get_or rows.now.heads r 0)
        (get_or rows.now.head_classes r 0) (get_or rows.now.head_classes p 0) }
{
    if rows.heads[r] == 0 || rows.head_classes[r] == rows.head_classes[p] {
        rows.finishes[r]
    } else {
        rows.starts[r]
    }
}

// Whether the virtual time, and the tag that counts, are within what they can be once so many packets have left.
#[tactic(auto, unfolding(crate::specs::Rows::sizes_tested, crate::specs::Row::sizes_test))]
fn sizes_sound(left: u64, tree: &TreeArrays, rows: &RowArrays, r: usize) -> bool
    requires { (left ≤ most_accepted) × (r < most_rows) × Inside tree.now.parents }
    ensures { result ≡ sizes_tested left tree.now.parents rows.now.starts rows.now.finishes rows.now.virtuals rows.now.heads
        rows.now.head_classes r }
{
    let p = parent_of(tree, r);
    rows.virtuals[r] <= most_at(left, rows.heads[r])
        && (r == 0 || tag_at(rows, r, p) <= most_at(left, rows.heads[p]))
}

// Bytes are those of packets that have left; what a lag starts from is at most what is counted now.
#[tactic(auto, unfolding(crate::specs::Rows::counts_tested, crate::specs::Row::counts_test))]
fn counts_sound(left: u64, tree: &TreeArrays, counts: &CountArrays, r: usize) -> bool
    requires { (left ≤ most_accepted) × (r < most_rows) × Inside tree.now.parents }
    ensures { result ≡ counts_tested left tree.now.parents counts.now.bytes counts.now.since counts.now.parent_since r }
{
    let p = parent_of(tree, r);
    counts.bytes[r] <= MOST_BYTES as u64 * left
        && counts.since[r] <= counts.bytes[r]
        && counts.parent_since[r] <= counts.bytes[p]
}

// All of them.
pub fn row_sound(
    left: u64,
    tree: &TreeArrays,
    senders: &RowMarks,
    rows: &RowArrays,
    counts: &CountArrays,
    walked: &Walked,
    r: usize,
) -> bool
    requires { (left ≤ most_accepted) × (r < most_rows) × Inside tree.now.parents }
    ensures { result ≡ row_tested left tree.now senders.now rows.now counts.now walked.now r }
{
    sender_sound(senders, rows, counts, walked, r)
        && inner_sound(senders, rows, counts, walked, r)
        && tags_sound(tree, rows, r)
        && sizes_sound(left, tree, rows, r)
        && counts_sound(left, tree, counts, r)
}
