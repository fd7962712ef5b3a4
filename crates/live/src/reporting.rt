// live report STATE: prints the report with the lags.
ghost use Rattle.std.specs.Prelude.{◌≤◌, length};
ghost use Rattle.live_rules.specs.Layout.{state_words};
ghost use Rattle.input.specs.Limits.{most_rows};

use crate::states::load_sound;
use files::{Stopped, first};
use input::{MOST_IDENTIFIER, MOST_ROWS, REPORT_WORDS};
use live_rules::{IDENTIFIERS_AT, ROWS_WORD, STATE_WORDS};
use output::Page;
use storing::load_words;

// Room for the heading and for every row (`Room: report-room` of the crate `forms`).
const REPORT_BYTES: usize = 48 + 149 * MOST_ROWS;

pub fn report(rt: &HostRuntime) -> Result<(), Stopped> {
    let mut state = [0u64; STATE_WORDS];
    let mut report = [0u64; REPORT_WORDS * MOST_ROWS];
    let mut lags = [0i64; MOST_ROWS];
    load_sound(rt, &mut state, &mut report, &mut lags)?;
    print(rt, &state, &report, &lags)
}

// Prints the report of a sound state.
fn print(rt: &HostRuntime, state: &[u64], report: &[u64], lags: &[i64]) -> Result<(), Stopped>
    requires { state_words ≤ length state.now }
{
    let rows = rows_of(state[ROWS_WORD]);
    let held = load_words(state, IDENTIFIERS_AT, rows, MOST_IDENTIFIER as u64).unwrap_or(
        [0; MOST_ROWS],
    );
    let identifiers = first(&held, rows as u64);
    let mut page: Page<REPORT_BYTES> = Page::blank();
    lines::put_report(&mut page, identifiers, report, lags);
    files::print(rt, &page)
}

// The rows in use of a sound state.
fn rows_of(word: u64) -> usize
    ensures { result ≤ most_rows }
{
    word.min(MOST_ROWS as u64) as usize
}
