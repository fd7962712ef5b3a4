// What is said of a file that cannot be read.
ghost use Rattle.std.specs.Prelude.{◌≡◌};
ghost use Rattle.output.specs.Pages.{page_of, Puts};
ghost use Rattle.files.specs.Sentences as sentences;
ghost use Rattle.files.specs.declared.Stopped.TheVariants.{Failed};

use crate::errors::number;
use crate::handing::say;
use crate::{Stopped, Unread};
use output::{Page, put_named, put_text};
use sentences::put_name;
use std::io::{Error, ErrorKind};
use text::Fault;

// Room for the longest name that the system passes, and for the words around it.
const PAGE: usize = 131072 + 512;

pub fn cannot_open(name: &[u8], error: Error) -> Stopped
    ensures { result ≡ Failed }
{
    let mut page: Page<PAGE> = Page::blank();
    put_cannot_open(&mut page, name, Unread::from(error));
    say(&page);
    Stopped::Failed
}

// A capture that has more bytes than so many.
pub fn too_long(name: &[u8], most: usize) -> Stopped
    ensures { result ≡ Failed }
{
    let mut page: Page<PAGE> = Page::blank();
    put_too_long(&mut page, name, most);
    say(&page);
    Stopped::Failed
}

// What is wrong in the line after these lines.
pub fn cannot_read(name: &[u8], lines: u64, fault: Fault) -> Stopped
    ensures { result ≡ Failed }
{
    let mut page: Page<PAGE> = Page::blank();
    put_cannot_read(&mut page, name, lines, fault);
    say(&page);
    Stopped::Failed
}

// What the system's error means, of a file that is opened or read.
impl From<Error> for Unread {
    fn from(error: Error) -> Unread {
        match error.kind() {
            ErrorKind::NotFound | ErrorKind::NotADirectory => Unread::Missing,
            ErrorKind::IsADirectory => Unread::Folder,
            ErrorKind::PermissionDenied => Unread::Forbidden,
            ErrorKind::InvalidFilename => Unread::LongName,
            _ => Unread::Other(number(error)),
        }
    }
}

#[tactic(auto, using(output::proofs::Pages::then), unfolding(crate::specs::Sentences::cannot_open, output::specs::Quoted::bytes_of))]
fn put_cannot_open<const N: usize>(page: &mut Page<N>, name: &[u8], why: Unread)
    ensures { Puts (sentences.cannot_open name.now why) page.old page.new }
{
    put_unread(page, name);
    why.put(page);
    page.put_byte(b'\n');
}

// What it means, put on lent bytes of which the first so many are used.
#[tactic(auto, unfolding(crate::specs::Sentences::why, output::specs::Quoted::bytes_of))]
pub fn put_why(page: &mut [u8], used: usize, why: Unread) -> usize
    ensures { Puts (sentences.why why) (page_of page.old used) (page_of page.new result) }
{
    match why {
        Unread::Missing => put_text(page, used, b": there is no such file"),
        Unread::Folder => put_text(page, used, b": it is a folder"),
        Unread::Forbidden => put_text(page, used, b": this user may not read it"),
        Unread::LongName => put_text(page, used, b": its name is too long"),
        Unread::Other(error) => put_named(
            page,
            used,
            b": the system refuses it with error ",
            error,
        ),
    }
}

impl Unread {
    pub fn put<const N: usize>(self, page: &mut Page<N>)
        ensures { Puts (sentences.why self) page.old page.new }
    {
        page.used = put_why(&mut page.bytes, page.used, self);
    }
}

fn put_too_long<const N: usize>(page: &mut Page<N>, name: &[u8], most: usize)
    ensures { Puts (sentences.too_long name.now most) page.old page.new }
{
    put_unread(page, name);
    page.put_text(b": it has more than ");
    page.put_number(most as u64);
    page.put_text(b" bytes; cut its packets down, say with editcap -F pcap -s 64\n");
}

fn put_cannot_read<const N: usize>(page: &mut Page<N>, name: &[u8], lines: u64, fault: Fault)
    ensures { Puts (sentences.cannot_read name.now lines fault) page.old page.new }
{
    put_unread(page, name);
    put_line(page, lines);
    put_fault(page, fault);
    page.put_byte(b'\n');
}

fn put_unread<const N: usize>(page: &mut Page<N>, name: &[u8])
    ensures { Puts (sentences.unread name.now) page.old page.new }
{
    page.put_text(b"cannot read ");
    put_name(page, name);
}

fn put_line<const N: usize>(page: &mut Page<N>, lines: u64)
    ensures { Puts (sentences.line_after lines) page.old page.new }
{
    page.put_text(b", line ");
    page.put_number(lines.saturating_add(1));
    page.put_text(b": ");
}

#[tactic(auto, unfolding(crate::specs::Sentences::fault, output::specs::Quoted::bytes_of))]
fn put_fault<const N: usize>(page: &mut Page<N>, fault: Fault)
    ensures { Puts (sentences.fault fault) page.old page.new }
{
    match fault {
        Fault::NoEnd => page.put_text(b"the line has no end"),
        Fault::WrongHeading => page.put_text(b"the heading must be class,length"),
        Fault::WrongCount => page.put_text(b"2 numbers are wanted"),
        Fault::NoNumber(place) => put_field(page, place, b" is not a decimal number"),
        Fault::TooLarge(place) => put_too_large(page, place),
    }
}

#[tactic(auto, using(output::proofs::Pages::then), unfolding(crate::specs::Sentences::too_large, output::specs::Quoted::bytes_of))]
fn put_too_large<const N: usize>(page: &mut Page<N>, place: u32)
    ensures { Puts (sentences.too_large place) page.old page.new }
{
    put_field(page, place, b" is over ");
    page.put_word(u32::MAX);
}

fn put_field<const N: usize>(page: &mut Page<N>, place: u32, why: &[u8])
    ensures { Puts (sentences.field place why.now) page.old page.new }
{
    page.put_named(b"field ", place);
    page.put_text(why);
}
