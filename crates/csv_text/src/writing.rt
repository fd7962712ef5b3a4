// Writing a class table, and a report with its lags, as text into lent bytes. A refusal writes nothing.
ghost use Rattle.std.specs.Prelude.{◌≢◌, ⊤, IfErr};
ghost use Rattle.input.specs.Lent.{table_of};
ghost use Rattle.input.specs.Refusals.{or_else};
ghost use Rattle.forms.specs.Outcomes as outcomes;
ghost use Rattle.forms.specs.Outcomes.{TableWritten, ReportWritten, answered, text_left_of};
ghost use Rattle.tables.specs.Judged.{Judged};

use crate::reading::{copy, count_refused};
use input::{MOST_ROWS, REPORT_WORDS, Refusal};
use lines::{put_report, put_table};
use output::Page;

// Room for the text of any table: a heading, and a row of three numbers, none of which has more than 20 digits.
const TABLE_BYTES: usize = 25 + 64 * MOST_ROWS;

// Room for any report: a heading, and a row of six numbers and a lag, none of which has more than 20 digits and a minus.
const REPORT_BYTES: usize = 48 + 149 * MOST_ROWS;

// A class table: 1, then 40, and the table's own. The count is that of the bytes.
pub fn write_table(
    identifiers: &[u32],
    parents: &[u32],
    shares: &[u32],
    text: &mut [u8],
) -> Result<u32, Refusal>
    ensures numbered { IfErr result (λ refusal. refusal.number ≢ 0) }
    ensures written { TableWritten (table_of identifiers.now parents.now shares.now) text.old
        (text_left_of (answered result) text.new) }
{
    tables::rows_refused(identifiers.len(), parents.len(), shares.len())?;
    let mut page: Page<TABLE_BYTES> = Page::blank();
    put_table(&mut page, identifiers, parents, shares);
    let table = page.text();
    if text.len() < table.len() {
        return Err(tables::refusal(40, 0, 0));
    }
    tables::read_table(identifiers, parents, shares)?;
    copy(table, text);
    Ok(table.len() as u32)
}

// A report with its lags: 1, then 3, then 40. The count is that of the bytes.
pub fn write_report(
    identifiers: &[u32],
    report: &[u64],
    lags: &[i64],
    text: &mut [u8],
) -> Result<u32, Refusal>
    ensures numbered { IfErr result (λ refusal. refusal.number ≢ 0) }
    ensures written { ReportWritten identifiers.now report.now lags.now text.old
        (text_left_of (answered result) text.new) }
{
    report_refused(identifiers.len(), report.len(), lags.len())?;
    let mut page: Page<REPORT_BYTES> = Page::blank();
    put_report(&mut page, identifiers, report, lags);
    let bytes = page.text();
    if text.len() < bytes.len() {
        return Err(tables::refusal(40, 0, 0));
    }
    copy(bytes, text);
    Ok(bytes.len() as u32)
}

// 1 for so many identifiers, then 3 for a report and lags of so many words.
fn report_refused(rows: usize, report: usize, lags: usize) -> Result<(), Refusal>
    ensures { Judged (or_else (outcomes.count_refused rows) (outcomes.results_refused rows report lags)) tt result }
{
    count_refused(rows)?;
    if report < REPORT_WORDS * rows || lags < rows {
        return Err(tables::refusal(3, 0, 0));
    }
    Ok(())
}
