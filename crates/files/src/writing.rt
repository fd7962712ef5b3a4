// What is said of results that cannot be written.
ghost use Rattle.output.specs.Pages.{Puts};
ghost use Rattle.files.specs.Sentences as sentences;

use crate::errors::{EBADF, number};
use crate::handing::say;
use crate::{Stopped, Unwritten};
use output::Page;
use std::io::{Error, ErrorKind};

// To a reader who has left nothing is said.
pub fn cannot_write(error: Error) -> Stopped {
    if error.kind() != ErrorKind::BrokenPipe {
        let mut page: Page<128> = Page::blank();
        put_cannot_write(&mut page, Unwritten::from(error));
        say(&page);
    }
    Stopped::Failed
}

// What the system's error means, of results that are written.
impl From<Error> for Unwritten {
    fn from(error: Error) -> Unwritten {
        if error.raw_os_error() == Some(EBADF) {
            return Unwritten::Closed;
        }
        match error.kind() {
            ErrorKind::StorageFull => Unwritten::Full,
            _ => Unwritten::Other(number(error)),
        }
    }
}

fn put_cannot_write<const N: usize>(page: &mut Page<N>, why: Unwritten)
    ensures { Puts (sentences.cannot_write why) page.old page.new }
{
    page.put_text(b"cannot write the results: ");
    why.put(page);
    page.put_byte(b'\n');
}

impl Unwritten {
    #[tactic(auto, unfolding(crate::specs::Sentences::why_unwritten, output::specs::Quoted::bytes_of))]
    fn put<const N: usize>(self, page: &mut Page<N>)
        ensures { Puts (sentences.why_unwritten self) page.old page.new }
    {
        match self {
            Unwritten::Full => page.put_text(b"the disk is full"),
            Unwritten::Closed => page.put_text(b"standard output is closed"),
            Unwritten::Other(error) => {
                page.put_named(b"the system refuses them with error ", error);
            }
        }
    }
}
