// A sentence from a template, and how it names a file, put on lent bytes of which the first so many are used.
ghost use Rattle.output.specs.Pages.{page_of, Puts};
ghost use Rattle.sentences.specs.Files as files;
ghost use Rattle.sentences.specs.Filled as filled;

use crate::naming::is_input;
use output::{put_byte, put_named, put_number, put_text};

// No sentence has a `#` of its own.
const MARK: u8 = b'#';

// Puts a template, with each mark in it replaced by the next of the numbers; by 0 where there are no more.
pub fn fill(page: &mut [u8], used: usize, template: &[u8], numbers: &[u64]) -> usize
    ensures { Puts (filled.filled template.now numbers.now) (page_of page.old used) (page_of page.new result) }
{
    let mut used = used;
    let mut numbers = numbers.iter();
    for byte in template {
        if *byte == MARK {
            used = put_number(page, used, numbers.next().copied().unwrap_or(0));
        } else {
            used = put_byte(page, used, *byte);
        }
    }
    used
}

// A file by its name as it was given.
#[tactic(auto, unfolding(crate::specs::Files::is_input, crate::specs::Files::shown, output::specs::Quoted::bytes_of))]
pub fn put_name(page: &mut [u8], used: usize, name: &[u8]) -> usize
    ensures { Puts (files.shown name.now) (page_of page.old used) (page_of page.new result) }
{
    if is_input(name) {
        return put_text(page, used, b"standard input");
    }
    put_text(page, used, name)
}

// The number of a refusal and the file that it is in; no name is no file.
pub fn put_refused(page: &mut [u8], used: usize, number: u32, name: &[u8]) -> usize
    ensures { Puts (files.refused number name.now) (page_of page.old used) (page_of page.new result) }
{
    let used = put_named(page, used, b"refused ", number);
    let used = put_in(page, used, name);
    put_text(page, used, b": ")
}

fn put_in(page: &mut [u8], used: usize, name: &[u8]) -> usize
    ensures { Puts (files.in_file name.now) (page_of page.old used) (page_of page.new result) }
{
    if name.is_empty() {
        return used;
    }
    let used = put_text(page, used, b" in ");
    put_name(page, used, name)
}
