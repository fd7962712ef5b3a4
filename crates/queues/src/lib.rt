// The queues as links in the lent working slice, and the order as it is written: what an event does to words that name packets.
// A word is a place + 1, or 0 for none, and no Option: C's caller lends words. The lasts and the slice stand side by side: a struct
// with a lent slice in it would say in each contract that it is the same slice still, and is no plainer.
#![tactic(auto)]

ghost use Rattle.std.specs.Prelude.{◌≡◌, ◌+◌, ◌-◌, ◌≤◌, ◌<◌, get_or, set, replicate};
ghost use Rattle.std.proofs.Math.ListN as lists;
ghost use Rattle.std.proofs.lemmas.List.Edits.{sets};
ghost use Rattle.input.specs.Limits.{most_rows, most_events};
ghost use Rattle.rules.specs.Outcome.{over};
ghost use Rattle.queues.specs.Words.{followed, shortened, length_of, sent_word};

use input::RowWords;

// No packet has a next one: the first n words are 0, of at least as many; the words after them stay.
pub fn clear(working: &mut [u32], n: usize)
    requires { n ≤ lists.length working.old }
    ensures { working.new ≡ over (replicate n 0) working.old }
{
    working[..n].fill(0);
}

// The packet that a word names is followed by another; where it names none there is nothing to do.
fn follow(working: &mut [u32], last: u32, word: u32)
    requires { last ≤ lists.length working.old }
    ensures { working.new ≡ followed working.old last word }
{
    if last == 0 {
        return;
    }
    working[words::wide(last) - 1] = word;
}

// A packet joins the queue of class k as its last.
pub fn join(lasts: &mut RowWords, working: &mut [u32], k: usize, word: u32)
    requires { (k < most_rows) × (get_or lasts.old k 0 ≤ lists.length working.old) }
    ensures lasts_after { lasts.new ≡ set lasts.old k word }
    ensures working_after { working.new ≡ followed working.old (get_or lasts.old k 0) word }
{
    follow(working, lasts[k], word);
    lasts[k] = word;
}

// The first packet leaves the queue of class k: which packet is its next, if it has one.
pub fn leave_first(lasts: &mut RowWords, working: &[u32], k: usize, first: u32) -> u32
    requires k_is_row { k < most_rows }
    requires first_some { 0 < first }
    requires first_inside { first ≤ lists.length working.now }
    ensures value { result ≡ get_or working.now (first - 1) 0 }
    ensures lasts_after { lasts.new ≡ shortened lasts.old k result }
{
    let next = working[words::wide(first) - 1];
    if next == 0 {
        lasts[k] = 0;
    }
    next
}

// The length of the packet that a word names, 0 where it names none.
pub fn length_of(lengths: &[u32], word: u32) -> u32
    requires { word ≤ lists.length lengths.now }
    ensures { result ≡ length_of lengths.now word }
{
    if word == 0 {
        return 0;
    }
    lengths[words::wide(word) - 1]
}

// The root's head goes on the line if that is idle; so many packets have then gone on it.
pub fn send(order: &mut [u32], sent: u32, idle: bool, head: u32) -> u32
    requires order_room { sent < lists.length order.old }
    requires events_few { sent < most_events }
    ensures order_after { order.new ≡ sets order.old sent (sent_word idle head) }
    ensures value { result ≡ sent + lists.length (sent_word idle head) }
{
    if head == 0 {
        return sent;
    }
    if idle {
        let more = sent + 1;
        order[words::wide(sent)] = head - 1;
        return more;
    }
    sent
}
