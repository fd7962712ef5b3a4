// A sentence from a template, in which each mark stands for a number.
ghost use Rattle.output.specs.Pages.{Puts};
ghost use Rattle.sentences.specs.Filled as filled;

use crate::lent;
use output::Page;

// Puts a template, with each mark in it replaced by the next of the numbers; by 0 where there are no more.
pub fn fill<const N: usize>(page: &mut Page<N>, template: &[u8], numbers: &[u64])
    ensures { Puts (filled.filled template.now numbers.now) page.old page.new }
{
    page.used = lent::fill(&mut page.bytes, page.used, template, numbers);
}
