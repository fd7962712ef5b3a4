// What is said of a refusal, to standard error.
use crate::events::EVENTS;
use crate::fresh::TABLE;
use crate::states::STATE;
use files::{begin_refusal, say};
use input::Refusal;
use live_rules::{MOST_ACCEPTED, MOST_HELD};
use output::Page;
use sentences::{
    Columns, Lists, SENTENCE_BYTES, fill, put_not_sending, put_wrong_event, table_sentence,
};

// Of a class table. The count of rows is that of the file.
pub fn say_table(rt: &HostRuntime, refusal: Refusal, rows: u64, table: Columns) {
    let mut page: Page<SENTENCE_BYTES> = Page::blank();
    begin_refusal(rt, &mut page, refusal.number, TABLE);
    table_sentence(&mut page, refusal, rows, table);
    say(&page);
}

// Of a state that is not sound.
pub fn say_unsound(rt: &HostRuntime) {
    let mut page: Page<SENTENCE_BYTES> = Page::blank();
    begin_refusal(rt, &mut page, 20, STATE);
    page.put_text(
        b"this is no sound state of a live box: it was damaged or is another file; make a fresh one, or bring back one that was kept.\n",
    );
    say(&page);
}

// Of those events of a list that these numbers refuse, after so many of earlier reads; the line itself has identifier `root`. The heading
// is line 1.
pub fn say_events(rt: &HostRuntime, numbers: &[Option<u32>], list: Lists, before: u64, root: u64) {
    let events = list.classes.iter().zip(list.lengths).zip(numbers);
    for (i, ((class, length), number)) in events.enumerate() {
        if let Some(number) = number {
            let line = before.saturating_add(i as u64).saturating_add(2);
            say_event(rt, *number, line, *class, *length, root);
        }
    }
}

fn say_event(rt: &HostRuntime, number: u32, line: u64, class: u32, length: u32, root: u64) {
    let mut page: Page<SENTENCE_BYTES> = Page::blank();
    begin_refusal(rt, &mut page, number, EVENTS);
    fill(&mut page, b"line #", &[line]);
    put_event(&mut page, number, class, length, root);
    say(&page);
}

// 11 to 14, 21 and 22, after the line.
fn put_event(page: &mut Page<SENTENCE_BYTES>, number: u32, class: u32, length: u32, root: u64) {
    match number {
        12 => {
            fill(page, b" is for class #", &[class as u64]);
            put_not_sending(page, class as u64 == root);
        }
        21 => fill(
            page,
            b", for class #, comes after # accepted packets, all that a state counts; make a fresh state.\n",
            &[class as u64, MOST_ACCEPTED],
        ),
        22 => fill(
            page,
            b", for class #, comes while # packets are held, all that there is room for; let the line finish some first.\n",
            &[class as u64, MOST_HELD as u64],
        ),
        _ => put_wrong_event(page, number, class, length),
    }
}
