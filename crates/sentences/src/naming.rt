// How a sentence names a file, and how one on a refusal begins.
ghost use Rattle.std.specs.Prelude.{◌≡◌};
ghost use Rattle.output.specs.Pages.{Puts};
ghost use Rattle.sentences.specs.Files as files;

use crate::lent;
use output::Page;

// Whether a name stands for standard input.
#[tactic(auto, unfolding(crate::specs::Files::is_input))]
pub fn is_input(name: &[u8]) -> bool
    ensures { result ≡ files.is_input name.now }
{
    matches!(name, [b'-'])
}

// A file by its name as it was given.
pub fn put_name<const N: usize>(page: &mut Page<N>, name: &[u8])
    ensures { Puts (files.shown name.now) page.old page.new }
{
    page.used = lent::put_name(&mut page.bytes, page.used, name);
}

// The number of a refusal and the file that it is in; no name is no file.
pub fn put_refused<const N: usize>(page: &mut Page<N>, number: u32, name: &[u8])
    ensures { Puts (files.refused number name.now) page.old page.new }
{
    page.used = lent::put_refused(&mut page.bytes, page.used, number, name);
}
