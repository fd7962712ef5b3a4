// The results of a run: how the report and the lags are written into the lent slices.
#![tactic(auto)]

ghost use Rattle.std.specs.Prelude.{◌≡◌, false, suc, ◌*◌, ◌-◌, ◌≤◌, ◌<◌, length, get_or, pos, ◌-ℤ◌};
ghost use Rattle.input.specs.Limits.{most_rows, whole, report_words};
ghost use Rattle.input.specs.Classes.{Tree};
ghost use Rattle.rules.specs.Box.{Box};
ghost use Rattle.rules.specs.Outcome.{report_of, lag, lags_of, over};
ghost use Rattle.counts.specs.Counts.{AtMost, most_finished, Counts};
ghost use Rattle.report.specs.Shown.{Sending, Shown, row_words};
ghost use Rattle.report.specs.Lags.{Shares, Past};

use arrays::{CountArrays, RowArrays, TreeArrays};
use input::{REPORT_WORDS, RowMarks};

// The report's words for row r: the root has no start and no finish, a sending class no virtual time.
fn row_words(r: usize, sender: bool, rows: &RowArrays, counts: &CountArrays) -> [u64; REPORT_WORDS]
    requires { r < most_rows }
    ensures { result ≡ row_words sender rows.now counts.now r }
{
    let start = if r == 0 { 0 } else { rows.starts[r] };
    let finish = if r == 0 { 0 } else { rows.finishes[r] };
    let virtual_time = if sender { 0 } else { rows.virtuals[r] };
    [
        counts.bytes[r],
        start,
        finish,
        virtual_time,
        words::long(counts.held[r]),
    ]
}

// The report: five words for each of the n rows, which it has room for; the words after them stay. The root is no sending class, as in
// every tree.
pub fn write_report(
    n: usize,
    senders: &RowMarks,
    rows: &RowArrays,
    counts: &CountArrays,
    report: &mut [u64],
)
    requires rows_few { n ≤ most_rows }
    requires report_room { report_words * n ≤ length report.old }
    requires line_sends_nothing { (0 < n → get_or senders.now 0 false ≡ false) }
    ensures { (tree : Tree) (box : Box) →
        Sending tree n senders.now →
        Shown box rows.now counts.now →
        report.new ≡ over (report_of tree box n) report.old }
{
    for r in 0..n {
        let at = REPORT_WORDS * r;
        report[at..at + REPORT_WORDS].copy_from_slice(&row_words(r, senders[r], rows, counts));
    }
}

// The lag of a row with this share, when its parent has finished so many bytes in its backlog and it so many itself.
fn lag_of(share: u64, parent_bytes: u64, own_bytes: u64) -> i64
    requires share_allowed { share ≤ whole }
    requires parent_small { parent_bytes ≤ most_finished }
    requires own_small { own_bytes ≤ most_finished }
    ensures { result ≡ pos (share * parent_bytes) -ℤ pos (whole * own_bytes) }
{
    let due = (share * parent_bytes) as i64;
    let done = (input::WHOLE as u64 * own_bytes) as i64;
    due - done
}

// The lag of row r.
fn lag_at(r: usize, tree: &TreeArrays, counts: &CountArrays) -> i64
    requires r_is_row { r < most_rows }
    requires parents_inside { AtMost (most_rows - 1) tree.now.parents }
    requires shares_allowed { AtMost whole tree.now.shares }
    requires bytes_small { AtMost most_finished counts.now.bytes }
    requires past { Past (suc r) tree.now.parents counts.now }
    ensures { (t : Tree) (box : Box) →
        Shares t tree.now → Counts box counts.now → result ≡ lag t box r }
{
    if r == 0 || counts.held[r] == 0 {
        return 0;
    }
    let p = words::wide(tree.parents[r]);
    let parent_bytes = counts.bytes[p] - counts.parent_since[r];
    let own_bytes = counts.bytes[r] - counts.since[r];
    lag_of(words::long(tree.shares[r]), parent_bytes, own_bytes)
}

// The lags: a word for each of the n rows, which there is room for; the words after them stay. Every parent is a row, so no index is
// out of range; no backlog began after now, so no difference is below 0; and with these bounds every lag fits.
pub fn write_lags(n: usize, tree: &TreeArrays, counts: &CountArrays, lags: &mut [i64])
    requires rows_few { n ≤ most_rows }
    requires lags_room { n ≤ length lags.old }
    requires parents_inside { AtMost (most_rows - 1) tree.now.parents }
    requires shares_allowed { AtMost whole tree.now.shares }
    requires bytes_small { AtMost most_finished counts.now.bytes }
    requires past { Past n tree.now.parents counts.now }
    ensures { (t : Tree) (box : Box) →
        Shares t tree.now → Counts box counts.now → lags.new ≡ over (lags_of t box n) lags.old }
{
    for r in 0..n {
        lags[r] = lag_at(r, tree, counts);
    }
}
