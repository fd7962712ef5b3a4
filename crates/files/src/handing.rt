// Handing what is put on a page over to the system.
use crate::Stopped;
use crate::errors::EINVAL;
use crate::writing::cannot_write;
use input::Refusal;
use output::Page;
use std::io::Error;

// Standard error.
pub const STDERR_FILENO: i32 = 2;

// Writes what is used of lent bytes, and answers whether all of it was written.
pub fn hand_over(to: i32, page: &[u8], used: usize) -> bool {
    used <= page.len() && io::write_all(to, &page[..used])
}

// Says what is on the page, to standard error.
pub fn say<const N: usize>(page: &Page<N>) {
    hand_over(STDERR_FILENO, &page.bytes, page.used);
}

pub fn say_text(text: &[u8]) {
    hand_over(STDERR_FILENO, text, text.len());
}

// Prints what is used of lent bytes; where it cannot be written, that is said.
pub fn print_lent(rt: &impl Print, page: &[u8], used: usize) -> Result<(), Stopped> {
    if page.len() < used {
        return Err(cannot_write(Error::from_raw_os_error(EINVAL)));
    }
    rt.write_all(&page[..used]).map_err(cannot_write)
}

// Prints what is on the page, likewise.
pub fn print<const N: usize>(rt: &impl Print, page: &Page<N>) -> Result<(), Stopped> {
    print_lent(rt, &page.bytes, page.used)
}

// Prints an answer's two lines.
pub fn print_answer(rt: &impl Print, answer: Result<u32, Refusal>) -> Result<(), Stopped> {
    let mut page: Page<512> = Page::blank();
    lines::put_answer(&mut page, answer);
    print(rt, &page)
}
