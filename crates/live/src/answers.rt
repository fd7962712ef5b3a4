// What is printed of answers.
use files::Stopped;
use input::Refusal;
use lines::{put_live_heading, put_live_line};
use output::Page;

// Room for the heading and for one answer (`Room: live-room` of the crate `forms`).
const ANSWER_BYTES: usize = 34 + 106;

pub fn print_heading(rt: &HostRuntime) -> Result<(), Stopped> {
    let mut page: Page<ANSWER_BYTES> = Page::blank();
    put_live_heading(&mut page);
    files::print(rt, &page)
}

// Prints an answer under the heading.
pub fn print_answer(rt: &HostRuntime, answer: Result<Option<u32>, Refusal>) -> Result<(), Stopped> {
    let mut page: Page<ANSWER_BYTES> = Page::blank();
    put_live_heading(&mut page);
    put_live_line(&mut page, answer);
    files::print(rt, &page)
}
