// Lines of text, put on lent bytes of which the first so many are used.
ghost use Rattle.std.specs.Prelude.{◌≡◌, [], ◌∷◌, ◌++◌, ◌+◌, ◌*◌, length, get_or, take, pos};
ghost use Rattle.input.specs.Lent.{table_of};
ghost use Rattle.input.specs.Limits.{report_words};
ghost use Rattle.output.specs.Pages.{page_of, Puts};
ghost use Rattle.output.specs.Numbers.{decimal, signed};
ghost use Rattle.forms.specs.Bytes.{comma, line_end, live_heading};
ghost use Rattle.forms.specs.Texts as texts;

use input::{Answer, REPORT_WORDS};
use output::{put_byte, put_number, put_signed, put_text, put_then, put_word};

// CR LF.
pub fn put_end(page: &mut [u8], used: usize) -> usize
    ensures { Puts line_end (page_of page.old used) (page_of page.new result) }
{
    let used = put_byte(page, used, 13);
    put_byte(page, used, 10)
}

// A row of a table.
fn put_row(page: &mut [u8], used: usize, identifier: u32, parent: u32, share: u32) -> usize
    ensures { Puts (texts.row_line identifier parent share) (page_of page.old used) (page_of page.new result) }
{
    let used = put_then(page, used, identifier, 44);
    let used = put_then(page, used, parent, 44);
    let used = put_word(page, used, share);
    put_end(page, used)
}

// The rows of a table whose slices have one length.
fn put_rows(
    page: &mut [u8],
    used: usize,
    identifiers: &[u32],
    parents: &[u32],
    shares: &[u32],
) -> usize
    requires { (length parents.now ≡ length identifiers.now) × (length shares.now ≡ length identifiers.now) }
    ensures { Puts (texts.row_lines (table_of identifiers.now parents.now shares.now) (length identifiers.now))
        (page_of page.old used) (page_of page.new result) }
{
    let mut used = used;
    for (r, &identifier) in identifiers.iter().enumerate() {
        used = put_row(page, used, identifier, parents[r], shares[r]);
    }
    used
}

// A table whose slices have one length.
pub fn put_table(
    page: &mut [u8],
    used: usize,
    identifiers: &[u32],
    parents: &[u32],
    shares: &[u32],
) -> usize
    requires { (length parents.now ≡ length identifiers.now) × (length shares.now ≡ length identifiers.now) }
    ensures { Puts (texts.table_text (table_of identifiers.now parents.now shares.now))
        (page_of page.old used) (page_of page.new result) }
{
    let used = put_text(page, used, b"identifier,parent,share");
    let used = put_end(page, used);
    put_rows(page, used, identifiers, parents, shares)
}

// A word of a row's report, 0 past its end.
fn report_word(report: &[u64], row: usize, j: usize) -> u64
    ensures { result ≡ get_or report.now (report_words * row + j) 0 }
{
    let place = REPORT_WORDS.saturating_mul(row).saturating_add(j);
    report.get(place).copied().unwrap_or(0)
}

// A row's lag, 0 past the end.
fn lag(lags: &[i64], row: usize) -> i64
    ensures { result ≡ get_or lags.now row (pos 0) }
{
    lags.get(row).copied().unwrap_or(0)
}

// A row's words of the report, a comma after each.
fn put_fields(page: &mut [u8], used: usize, report: &[u64], row: usize) -> usize
    ensures { Puts (texts.report_fields report.now row report_words) (page_of page.old used) (page_of page.new result) }
{
    let mut used = used;
    for j in 0..REPORT_WORDS {
        used = put_field(page, used, report_word(report, row, j));
    }
    used
}

// A number and a comma.
pub fn put_field(page: &mut [u8], used: usize, n: u64) -> usize
    ensures { Puts (decimal n ++ comma ∷ []) (page_of page.old used) (page_of page.new result) }
{
    let used = put_number(page, used, n);
    put_byte(page, used, 44)
}

// The line of a row whose identifier and lag are these.
fn put_report_line(
    page: &mut [u8],
    used: usize,
    identifier: u32,
    report: &[u64],
    lag: i64,
    row: usize,
) -> usize
    ensures { Puts (decimal identifier ++ comma ∷ texts.report_fields report.now row report_words ++ signed lag ++ line_end)
        (page_of page.old used) (page_of page.new result) }
{
    let used = put_then(page, used, identifier, 44);
    let used = put_fields(page, used, report, row);
    let used = put_signed(page, used, lag);
    put_end(page, used)
}

fn put_report_lines(
    page: &mut [u8],
    used: usize,
    identifiers: &[u32],
    report: &[u64],
    lags: &[i64],
) -> usize
    ensures { Puts (texts.report_lines identifiers.now report.now lags.now (length identifiers.now))
        (page_of page.old used) (page_of page.new result) }
{
    let mut used = used;
    for (r, &identifier) in identifiers.iter().enumerate() {
        used = put_report_line(page, used, identifier, report, lag(lags, r), r);
    }
    used
}

// A report with its lags.
pub fn put_report(
    page: &mut [u8],
    used: usize,
    identifiers: &[u32],
    report: &[u64],
    lags: &[i64],
) -> usize
    ensures { Puts (texts.report_text identifiers.now report.now lags.now) (page_of page.old used) (page_of page.new result) }
{
    let heading = b"identifier,bytes,start,finish,virtual,held,lag";
    let used = put_text(page, used, heading);
    let used = put_end(page, used);
    put_report_lines(page, used, identifiers, report, lags)
}

// An answer's four numbers under their names.
pub fn put_answer(page: &mut [u8], used: usize, answer: Answer) -> usize
    ensures { Puts (texts.answer_text answer) (page_of page.old used) (page_of page.new result) }
{
    let used = put_text(page, used, b"answer,place,second,count");
    let used = put_end(page, used);
    let used = put_then(page, used, answer.number, 44);
    let used = put_then(page, used, answer.place, 44);
    let used = put_then(page, used, answer.second, 44);
    let last = put_word(page, used, answer.count);
    put_end(page, last)
}

// A line for each word.
fn put_words(page: &mut [u8], used: usize, words: &[u32]) -> usize
    ensures { Puts (texts.word_lines words.now) (page_of page.old used) (page_of page.new result) }
{
    let mut used = used;
    for &word in words {
        let after = put_word(page, used, word);
        used = put_end(page, after);
    }
    used
}

// An order's first words, as many as there are at most.
fn put_order(page: &mut [u8], used: usize, order: &[u32], count: u32) -> usize
    ensures { Puts (texts.order_text (take count order.now)) (page_of page.old used) (page_of page.new result) }
{
    let used = put_text(page, used, b"order");
    let used = put_end(page, used);
    put_words(page, used, &order[..(count as usize).min(order.len())])
}

// All that a run comes to: the answer and, of a done one, the order and the report.
pub fn put_run(
    page: &mut [u8],
    used: usize,
    answer: Answer,
    identifiers: &[u32],
    order: &[u32],
    report: &[u64],
    lags: &[i64],
) -> usize
    ensures { Puts (texts.run_text answer identifiers.now order.now report.now lags.now)
        (page_of page.old used) (page_of page.new result) }
{
    let used = put_answer(page, used, answer);
    if answer.number != 0 {
        return used;
    }
    let used = put_order(page, used, order, answer.count);
    put_report(page, used, identifiers, report, lags)
}

// The names of a live box's answers.
pub fn put_live_heading(page: &mut [u8], used: usize) -> usize
    ensures { Puts (live_heading ++ line_end) (page_of page.old used) (page_of page.new result) }
{
    let used = put_text(page, used, b"answer,place,second,count,packet");
    put_end(page, used)
}

// One of its answers.
pub fn put_live_line(
    page: &mut [u8],
    used: usize,
    number: u32,
    place: u32,
    second: u32,
    count: u32,
    packet: u32,
) -> usize
    ensures { Puts (texts.live_line number place second count packet) (page_of page.old used) (page_of page.new result) }
{
    let used = put_then(page, used, number, 44);
    let used = put_then(page, used, place, 44);
    let used = put_then(page, used, second, 44);
    let used = put_then(page, used, count, 44);
    let used = put_word(page, used, packet);
    put_end(page, used)
}
