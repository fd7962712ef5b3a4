// The report and the lags of a kept state.
ghost use Rattle.std.specs.Prelude.{◌≡◌, ◌≢◌, ◌||◌, ◌*◌, ◌≤◌, ltb, length, IfErr};
ghost use Rattle.input.specs.Limits.{most_rows, report_words};
ghost use Rattle.live_rules.specs.Layout.{state_words};
ghost use Rattle.live_rules.specs.State.{Live};
ghost use Rattle.live_rules.specs.Outcomes.{Tells};
ghost use Rattle.state.specs.Opened.{Opened};
ghost use Rattle.live_box.specs.Calls.{done_of, told_of};
ghost use Rattle.live_box.specs.Reports.{Tellable, Written};

use input::{MOST_ROWS, REPORT_WORDS, Refusal};
use live_rules::STATE_WORDS;
use state::State;

// Whether a slice is too short, by their lengths: report and lags for all rows that there can be.
fn too_short(state: usize, report: usize, lags: usize) -> bool
    ensures { result ≡ ((ltb report (report_words * most_rows) || ltb lags most_rows) || ltb state state_words) }
{
    report < REPORT_WORDS * MOST_ROWS || lags < MOST_ROWS || state < STATE_WORDS
}

// The report and the lags of the rows in use; the words after them stay.
fn tell(state: &State, report: &mut [u64], lags: &mut [i64])
    requires tellable { Tellable state.now }
    requires report_room { report_words * most_rows ≤ length report.old }
    requires lags_room { most_rows ≤ length lags.old }
    ensures { (live : Live) → Opened live state.now
        → Written live report.old lags.old report.new lags.new }
{
    let n = state.rows_count;
    report::write_report(n, &state.senders, &state.rows, &state.counts, report);
    report::write_lags(n, &state.tree, &state.counts, lags);
}

// The report of a kept state, with its lags: 3, then 20; a refusal writes nothing.
pub fn report(state: &[u64], report: &mut [u64], lags: &mut [i64]) -> Result<(), Refusal>
    ensures numbered { IfErr result (λ refusal. refusal.number ≢ 0) }
    ensures told { Tells state.now report.old lags.old (told_of (done_of result) report.new lags.new) }
{
    if too_short(state.len(), report.len(), lags.len()) {
        return Err(tables::refusal(3, 0, 0));
    }
    let mut opened = State::zeros();
    if !opened.open(state) {
        return Err(tables::refusal(20, 0, 0));
    }
    tell(&opened, report, lags);
    Ok(())
}
