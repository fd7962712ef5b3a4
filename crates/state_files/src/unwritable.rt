// What is said of a state that cannot be written.
ghost use Rattle.output.specs.Pages.{Puts};
ghost use Rattle.state_files.specs.Sentences as sentences;

use crate::Unstored;
use files::{Stopped, Unread, say};
use output::Page;
use std::io::{Error, ErrorKind};

// Room for the longest name that the system passes, and for the words around it.
const PAGE: usize = 131072 + 512;

pub fn cannot_store(name: &[u8], error: Error) -> Stopped {
    let mut page: Page<PAGE> = Page::blank();
    put_cannot_store(&mut page, name, Unstored::from(error));
    say(&page);
    Stopped::Failed
}

// What the system's error means, of a file that is written and renamed.
impl From<Error> for Unstored {
    fn from(error: Error) -> Unstored {
        match error.kind() {
            ErrorKind::StorageFull | ErrorKind::QuotaExceeded => Unstored::Full,
            ErrorKind::PermissionDenied | ErrorKind::ReadOnlyFilesystem => Unstored::Forbidden,
            ErrorKind::NotFound | ErrorKind::NotADirectory => Unstored::NoFolder,
            _ => Unstored::Other(Unread::from(error)),
        }
    }
}

fn put_cannot_store<const N: usize>(page: &mut Page<N>, name: &[u8], why: Unstored)
    ensures { Puts (sentences.cannot_store name.now why) page.old page.new }
{
    page.put_text(b"cannot write ");
    page.put_text(name);
    why.put(page);
    page.put_byte(b'\n');
}

impl Unstored {
    #[tactic(auto, unfolding(crate::specs::Sentences::why_unstored, output::specs::Quoted::bytes_of))]
    fn put<const N: usize>(self, page: &mut Page<N>)
        ensures { Puts (sentences.why_unstored self) page.old page.new }
    {
        match self {
            Unstored::Full => page.put_text(b": the disk is full"),
            Unstored::Forbidden => page.put_text(b": this user may not write it"),
            Unstored::NoFolder => page.put_text(b": there is no such folder"),
            Unstored::Other(reason) => reason.put(page),
        }
    }
}
