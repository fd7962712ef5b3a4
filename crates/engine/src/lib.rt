// The run, by either way to find the child that a row takes: refusals first, then event by event, then the results.
#![tactic(auto)]

ghost use Rattle.std.specs.Prelude.{◌≢◌, ◌*◌, ◌≤◌, IfErr};
ghost use Rattle.std.proofs.Math.ListN as lists;
ghost use Rattle.input.specs.Limits.{report_words};
ghost use Rattle.input.specs.Lent.{events_of};
ghost use Rattle.rules.specs.Outcome.{Ran};
ghost use Rattle.arrays.specs.Arrays.{tree_in};
ghost use Rattle.report.specs.Shown.{Sending};
ghost use Rattle.events.specs.State.{Fit};
ghost use Rattle.engine.specs.Served.{RowsFor, Served};
ghost use Rattle.engine.specs.Run.{lent_of, left_of, answer_of};

use arrays::{CountArrays, RowArrays, TreeArrays};
use checks::ResultRoom;
use choosing::Finding;
use input::{EventRows, MOST_EVENTS, MOST_ROWS, Refusal, RowMarks};

#[cfg(test)]
mod tests;

// An input that is not refused: its events in turn, and then the results. So many packets have gone on the line. Slices
// stand one by one, as C lends them.
fn serve<F: Finding>(
    identifiers: &[u32],
    classes: &[u32],
    lengths: &[u32],
    tree: &TreeArrays,
    senders: &RowMarks,
    event_rows: &EventRows,
    order: &mut [u32],
    report: &mut [u64],
    lags: &mut [i64],
    working: &mut [u32],
) -> u32
    requires fit { Fit (tree_in (lists.length identifiers.now) identifiers.now tree.now) (events_of classes.now lengths.now) }
    requires senders_told { Sending (tree_in (lists.length identifiers.now) identifiers.now tree.now) (lists.length identifiers.now) senders.now }
    requires event_rows_told { RowsFor (tree_in (lists.length identifiers.now) identifiers.now tree.now) (events_of classes.now lengths.now) event_rows.now }
    requires order_room { lists.length classes.now ≤ lists.length order.old }
    requires working_room { lists.length classes.now ≤ lists.length working.old }
    requires report_room { report_words * lists.length identifiers.now ≤ lists.length report.old }
    requires lags_room { lists.length identifiers.now ≤ lists.length lags.old }
    ensures { Served (tree_in (lists.length identifiers.now) identifiers.now tree.now)
        (events_of classes.now lengths.now) result
        order.old order.new report.old report.new lags.old lags.new
        working.old working.new }
{
    let mut rows = RowArrays::zeros();
    let mut counts = CountArrays::zeros();
    let mut lasts = [0; MOST_ROWS];
    let mut finding = F::open(identifiers.len(), tree);
    queues::clear(working, classes.len());
    let mut sent = 0;
    for i in 0..classes.len() {
        sent = events::step(
            tree,
            lengths,
            &mut rows,
            &mut finding,
            &mut counts,
            &mut lasts,
            working,
            order,
            i,
            event_rows[i],
            sent,
        );
    }
    report::write_report(identifiers.len(), senders, &rows, &counts, report);
    report::write_lags(identifiers.len(), tree, &counts, lags);
    sent
}

// The run by one of the ways. Of a refused input it answers the refusal and writes nothing; else it serves every event, and answers how
// many packets went on the line.
pub fn run<F: Finding>(
    identifiers: &[u32],
    parent_identifiers: &[u32],
    shares: &[u32],
    classes: &[u32],
    lengths: &[u32],
    order: &mut [u32],
    report: &mut [u64],
    lags: &mut [i64],
    working: &mut [u32],
) -> Result<u32, Refusal>
    ensures numbered { IfErr result (λ refusal. refusal.number ≢ 0) }
    ensures ran { Ran
        (lent_of identifiers.now parent_identifiers.now shares.now classes.now lengths.now
        order.old report.old lags.old working.old)
        (left_of (answer_of result) order.new report.new lags.new working.new) }
{
    let room = ResultRoom {
        order: order.len(),
        report: report.len(),
        lags: lags.len(),
        working: working.len(),
    };
    let mut event_rows = [0; MOST_EVENTS];
    let reading = checks::check_into(
        identifiers,
        parent_identifiers,
        shares,
        classes,
        lengths,
        room,
        &mut event_rows,
    )?;
    let sent = serve::<F>(
        identifiers,
        classes,
        lengths,
        &reading.tree,
        &reading.senders,
        &event_rows,
        order,
        report,
        lags,
        working,
    );
    queues::clear(working, classes.len());
    Ok(sent)
}
