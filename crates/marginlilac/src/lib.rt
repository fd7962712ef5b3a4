// The run for C: on bytes, which may lie at any address. They are read into words, and the results are written back as bytes: four to a
// word, and eight in the report and the lags.
#![tactic(auto)]

ghost use Rattle.std.specs.Prelude.{◌≡◌, ◌≢◌, IfErr};
ghost use Rattle.std.proofs.Math.ListN as lists;
ghost use Rattle.rules.specs.Outcome.{Ran, outcome};
ghost use Rattle.engine.specs.Run.{lent_of, left_of, answer_of};
ghost use Rattle.octets.specs.Octets.{words_of};
ghost use Rattle.marginlilac.specs.Exported.{Exports, lent_bytes, left_bytes, spare, words_lent, bytes_left, answer_words, answer_bytes};
ghost use Rattle.marginlilac.specs.Held.{Held, Sized};

use checks::ResultRoom;
use choosing::Finding;
use heaps::Heaps;
use input::{MOST_EVENTS, MOST_ROWS, REPORT_WORDS, Refusal};
use looking::Looking;

// Bytes that make no whole word, in slices of so many bytes together. C lends the slices one by one, and so they stand throughout.
fn spare(
    identifiers: usize,
    parents: usize,
    shares: usize,
    classes: usize,
    lengths: usize,
    order: usize,
    report: usize,
    lags: usize,
    working: usize,
) -> usize
    ensures { result ≡ spare identifiers parents shares classes lengths order report lags working }
{
    let rows = identifiers % 4 + parents % 4 + shares % 4;
    let events = classes % 4 + lengths % 4;
    rows + events + order % 4 + report % 8 + lags % 8 + working % 4
}

// The answer's four words.
fn answer_words(done: Result<u32, Refusal>) -> [u32; 4]
    ensures { result ≡ answer_words (answer_of done) }
{
    match done {
        Ok(sent) => [0, 0, 0, sent],
        Err(refusal) => [refusal.number, refusal.place, refusal.second, 0],
    }
}

// Writes the answer; its number.
fn write_answer(answer: &mut [u8], done: Result<u32, Refusal>) -> u32
    requires { lists.length answer.old ≡ 16 }
    ensures { (answer.new ≡ answer_bytes (answer_of done)) × (result ≡ (answer_of done).number) }
{
    let words = answer_words(done);
    octets::write_words(&words, answer);
    words[0]
}

// The run on the words of these bytes, which the arrays have room for.
fn run_read<F: Finding>(
    identifiers: &[u8],
    parents: &[u8],
    shares: &[u8],
    classes: &[u8],
    lengths: &[u8],
    order: &mut [u32],
    report: &mut [u64],
    lags: &mut [i64],
    working: &mut [u32],
) -> Result<u32, Refusal>
    requires { Held identifiers.now parents.now shares.now classes.now lengths.now }
    ensures numbered { IfErr result (λ refusal. refusal.number ≢ 0) }
    ensures ran { Ran
        (lent_of (words_of 4 identifiers.now) (words_of 4 parents.now) (words_of 4 shares.now)
        (words_of 4 classes.now) (words_of 4 lengths.now)
        order.old report.old lags.old working.old)
        (left_of (answer_of result) order.new report.new lags.new working.new) }
{
    let mut row_identifiers = [0u32; MOST_ROWS];
    let mut row_parents = [0u32; MOST_ROWS];
    let mut row_shares = [0u32; MOST_ROWS];
    let mut event_classes = [0u32; MOST_EVENTS];
    let mut event_lengths = [0u32; MOST_EVENTS];
    octets::read_words(identifiers, &mut row_identifiers);
    octets::read_words(parents, &mut row_parents);
    octets::read_words(shares, &mut row_shares);
    octets::read_words(classes, &mut event_classes);
    octets::read_words(lengths, &mut event_lengths);
    engine::run::<F>(
        &row_identifiers[..identifiers.len() / 4],
        &row_parents[..parents.len() / 4],
        &row_shares[..shares.len() / 4],
        &event_classes[..classes.len() / 4],
        &event_lengths[..lengths.len() / 4],
        order,
        report,
        lags,
        working,
    )
}

// The run on bytes that are whole words, of lengths that are not refused. Of a refused input the answer alone is written.
fn run_written<F: Finding>(
    identifiers: &[u8],
    parents: &[u8],
    shares: &[u8],
    classes: &[u8],
    lengths: &[u8],
    order: &mut [u8],
    report: &mut [u8],
    lags: &mut [u8],
    working: &mut [u8],
    answer: &mut [u8],
) -> u32
    requires { Sized (lent_bytes identifiers.now parents.now shares.now classes.now lengths.now
        order.old report.old lags.old working.old answer.old) }
    ensures { left_bytes result order.new report.new lags.new working.new answer.new
        ≡ bytes_left (outcome (words_lent (lent_bytes identifiers.now parents.now shares.now
        classes.now lengths.now order.old report.old lags.old
        working.old answer.old))) }
{
    let mut order_words = [0u32; MOST_EVENTS];
    let mut report_words = [0u64; REPORT_WORDS * MOST_ROWS];
    let mut lag_words = [0i64; MOST_ROWS];
    let mut links = [0u32; MOST_EVENTS];
    let done = run_read::<F>(
        identifiers,
        parents,
        shares,
        classes,
        lengths,
        &mut order_words,
        &mut report_words,
        &mut lag_words,
        &mut links,
    );
    let number = write_answer(answer, done);
    let sent = match done {
        Ok(sent) => sent,
        Err(_) => return number,
    };
    let rows = identifiers.len() / 4;
    octets::write_words(&order_words[..words::wide(sent)], order);
    octets::write_words(&report_words[..REPORT_WORDS * rows], report);
    octets::write_words(&lag_words[..rows], lags);
    octets::clear(working, classes.len());
    number
}

// The run on bytes: part words are refused before all else, with nothing written, and lengths before anything is read.
fn run_bytes<F: Finding>(
    identifiers: &[u8],
    parents: &[u8],
    shares: &[u8],
    classes: &[u8],
    lengths: &[u8],
    order: &mut [u8],
    report: &mut [u8],
    lags: &mut [u8],
    working: &mut [u8],
    answer: &mut [u8],
) -> u32
    ensures { Exports
        (lent_bytes identifiers.now parents.now shares.now classes.now lengths.now
        order.old report.old lags.old working.old answer.old)
        (left_bytes result order.new report.new lags.new working.new answer.new) }
{
    let over = spare(
        identifiers.len(),
        parents.len(),
        shares.len(),
        classes.len(),
        lengths.len(),
        order.len(),
        report.len(),
        lags.len(),
        working.len(),
    );
    if over != 0 {
        return 3;
    }
    if answer.len() != 16 {
        return 3;
    }
    let room = ResultRoom {
        order: order.len() / 4,
        report: report.len() / 8,
        lags: lags.len() / 8,
        working: working.len() / 4,
    };
    if let Err(refusal) = checks::check_counts(
        identifiers.len() / 4,
        parents.len() / 4,
        shares.len() / 4,
        classes.len() / 4,
        lengths.len() / 4,
        room,
    ) {
        return write_answer(answer, Err(refusal));
    }
    run_written::<F>(
        identifiers,
        parents,
        shares,
        classes,
        lengths,
        order,
        report,
        lags,
        working,
        answer,
    )
}

// The run by the plain engine: a row looks through all its children.
#[unsafe(no_mangle)]
pub extern "C" fn marginlilac_run(
    identifiers: &[u8],
    parents: &[u8],
    shares: &[u8],
    classes: &[u8],
    lengths: &[u8],
    order: &mut [u8],
    report: &mut [u8],
    lags: &mut [u8],
    working: &mut [u8],
    answer: &mut [u8],
) -> u32
    ensures { Exports
        (lent_bytes identifiers.now parents.now shares.now classes.now lengths.now
        order.old report.old lags.old working.old answer.old)
        (left_bytes result order.new report.new lags.new working.new answer.new) }
{
    run_bytes::<Looking>(
        identifiers,
        parents,
        shares,
        classes,
        lengths,
        order,
        report,
        lags,
        working,
        answer,
    )
}

// The run by the quicker engine: a row's waiting children are in heaps.
#[unsafe(no_mangle)]
pub extern "C" fn marginlilac_run_heaps(
    identifiers: &[u8],
    parents: &[u8],
    shares: &[u8],
    classes: &[u8],
    lengths: &[u8],
    order: &mut [u8],
    report: &mut [u8],
    lags: &mut [u8],
    working: &mut [u8],
    answer: &mut [u8],
) -> u32
    ensures { Exports
        (lent_bytes identifiers.now parents.now shares.now classes.now lengths.now
        order.old report.old lags.old working.old answer.old)
        (left_bytes result order.new report.new lags.new working.new answer.new) }
{
    run_bytes::<Heaps>(
        identifiers,
        parents,
        shares,
        classes,
        lengths,
        order,
        report,
        lags,
        working,
        answer,
    )
}
