// Lines of text, put on a page. The slices of a table and of a report stand one by one, as the run and C are lent them.
#![tactic(auto)]

pub mod lent;

ghost use Rattle.std.specs.Prelude.{◌≡◌, [], ◌∷◌, ◌++◌, length};
ghost use Rattle.input.specs.Lent.{table_of};
ghost use Rattle.output.specs.Pages.{Puts};
ghost use Rattle.output.specs.Numbers.{decimal};
ghost use Rattle.forms.specs.Bytes.{comma, line_end, live_heading};
ghost use Rattle.forms.specs.Texts as texts;
ghost use Rattle.forms.specs.Outcomes.{answered, result_text, live_text};

use input::{Answer, Refusal};
use output::Page;

// CR LF.
pub fn put_end<const N: usize>(page: &mut Page<N>)
    ensures { Puts line_end page.old page.new }
{
    page.used = lent::put_end(&mut page.bytes, page.used);
}

// A table whose slices have one length.
pub fn put_table<const N: usize>(
    page: &mut Page<N>,
    identifiers: &[u32],
    parents: &[u32],
    shares: &[u32],
)
    requires { (length parents.now ≡ length identifiers.now) × (length shares.now ≡ length identifiers.now) }
    ensures { Puts (texts.table_text (table_of identifiers.now parents.now shares.now)) page.old page.new }
{
    page.used = lent::put_table(&mut page.bytes, page.used, identifiers, parents, shares);
}

// A number and a comma.
pub fn put_field<const N: usize>(page: &mut Page<N>, n: u64)
    ensures { Puts (decimal n ++ comma ∷ []) page.old page.new }
{
    page.used = lent::put_field(&mut page.bytes, page.used, n);
}

// A report with its lags.
pub fn put_report<const N: usize>(
    page: &mut Page<N>,
    identifiers: &[u32],
    report: &[u64],
    lags: &[i64],
)
    ensures { Puts (texts.report_text identifiers.now report.now lags.now) page.old page.new }
{
    page.used = lent::put_report(&mut page.bytes, page.used, identifiers, report, lags);
}

// The four numbers of an answer: 0 for what is done, and no count for what is refused.
#[tactic(auto, unfolding(input::specs::Refusals::nothing))]
fn numbers_of(answer: Result<u32, Refusal>) -> Answer
    ensures { result ≡ answered answer }
{
    match answer {
        Ok(count) => Answer {
            number: 0,
            place: 0,
            second: 0,
            count,
        },
        Err(refusal) => Answer {
            number: refusal.number,
            place: refusal.place,
            second: refusal.second,
            count: 0,
        },
    }
}

// An answer's four numbers under their names.
pub fn put_answer<const N: usize>(page: &mut Page<N>, answer: Result<u32, Refusal>)
    ensures { Puts (texts.answer_text (answered answer)) page.old page.new }
{
    page.used = lent::put_answer(&mut page.bytes, page.used, numbers_of(answer));
}

// All that a run comes to: the answer and, of a done one, the order and the report.
pub fn put_run<const N: usize>(
    page: &mut Page<N>,
    answer: Result<u32, Refusal>,
    identifiers: &[u32],
    order: &[u32],
    report: &[u64],
    lags: &[i64],
)
    ensures { Puts (result_text answer identifiers.now order.now report.now lags.now) page.old page.new }
{
    if answer.is_err() {
        put_answer(page, answer);
        return;
    }
    page.used = lent::put_run(
        &mut page.bytes,
        page.used,
        numbers_of(answer),
        identifiers,
        order,
        report,
        lags,
    );
}

// The names of a live box's answers.
pub fn put_live_heading<const N: usize>(page: &mut Page<N>)
    ensures { Puts (live_heading ++ line_end) page.old page.new }
{
    page.used = lent::put_live_heading(&mut page.bytes, page.used);
}

// One of its answers: what went on the line, if anything did, or the refusal.
#[tactic(auto, unfolding(input::specs::Refusals::nothing))]
pub fn put_live_line<const N: usize>(page: &mut Page<N>, answer: Result<Option<u32>, Refusal>)
    ensures { Puts (live_text answer) page.old page.new }
{
    match answer {
        Ok(None) => put_live_numbers(page, Ok(0), 0),
        Ok(Some(packet)) => put_live_numbers(page, Ok(1), packet),
        Err(refusal) => put_live_numbers(page, Err(refusal), 0),
    }
}

// The four numbers of an answer and the packet's name.
fn put_live_numbers<const N: usize>(page: &mut Page<N>, answer: Result<u32, Refusal>, packet: u32)
    ensures { Puts (texts.live_line (answered answer).number (answered answer).place (answered answer).second (answered answer).count packet)
        page.old page.new }
{
    let Answer {
        number,
        place,
        second,
        count,
    } = numbers_of(answer);
    page.used = lent::put_live_line(
        &mut page.bytes,
        page.used,
        number,
        place,
        second,
        count,
        packet,
    );
}
