// All refusals of a table: their answers, and a sentence for each.
use files::{Stopped, begin_refusal, say};
use input::{MOST_ROWS, Refusal};
use lines::put_end;
use output::Page;
use sentences::{Columns, SENTENCE_BYTES};

// Room for the heading and for two answers of each row.
pub const ANSWERS_BYTES: usize = 64 * (2 * MOST_ROWS + 1);

// Whether none of these refuses.
pub fn nothing(refusals: &[Option<Refusal>]) -> bool {
    refusals.iter().all(|refusal| refusal.is_none())
}

// Prints the answers, of the rows and then of the sums, and says what each of them names.
pub fn give(
    rt: &HostRuntime,
    of_rows: &[Option<Refusal>],
    sums: &[Option<Refusal>],
    rows: u64,
    table: Columns,
) -> Result<(), Stopped> {
    let mut page: Page<ANSWERS_BYTES> = Page::blank();
    for &refusal in of_rows.iter().chain(sums).flatten() {
        put_answer(&mut page, refusal);
    }
    files::print(rt, &page)?;
    for &refusal in of_rows.iter().chain(sums).flatten() {
        tell(rt, refusal, rows, table);
    }
    Err(Stopped::Refused)
}

// An answer, after the heading where it is the first.
fn put_answer(page: &mut Page<ANSWERS_BYTES>, refusal: Refusal) {
    if page.text().is_empty() {
        lines::put_answer(page, Err(refusal));
        return;
    }
    page.put_then(refusal.number, b',');
    page.put_then(refusal.place, b',');
    page.put_then(refusal.second, b',');
    page.put_word(0);
    put_end(page);
}

// Of a refusal its sentence.
fn tell(rt: &HostRuntime, refusal: Refusal, rows: u64, table: Columns) {
    let mut page: Page<SENTENCE_BYTES> = Page::blank();
    begin_refusal(rt, &mut page, refusal.number, 1);
    sentences::table_sentence(&mut page, refusal, rows, table);
    say(&page);
}
