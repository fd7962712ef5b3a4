// Taking the events of one read: each is answered, the state is stored, the answers are printed, and what was refused is said.
ghost use Rattle.std.specs.Prelude.{◌≡◌, ◌≤◌, length};
ghost use Rattle.live_rules.specs.Layout.{state_words};

use crate::refusals::say_events;
use crate::states::STATE;
use files::Stopped;
use lines::put_live_line;
use live_rules::IDENTIFIERS_AT;
use output::Page;
use sentences::Lists;
use state_files::store_state;

// Events of one read at most (`Few: few-events`): of its 65,536 bytes the first may end one, and each one more takes four or more.
pub const MOST_A_READ: usize = 16384;

// Room for so many answers (`Room: live-room` of the crate `forms`).
const ANSWERS_BYTES: usize = 106 * MOST_A_READ;

// The events of a list, after so many of earlier reads; answers whether one was refused. An answer is printed only once its event is in the
// file.
pub fn take(rt: &HostRuntime, list: Lists, before: u64, state: &mut [u64]) -> Result<bool, Stopped>
    requires { state_words ≤ length state.old }
{
    let mut page = blank();
    let mut numbers = [None; MOST_A_READ];
    if take_each(list, state, &mut page, &mut numbers) {
        store_state(rt, STATE, state)?;
    }
    files::print(rt, &page)?;
    say_events(rt, &numbers, list, before, state[IDENTIFIERS_AT]);
    Ok(numbers.iter().any(|number| number.is_some()))
}

// A page with nothing on it, and room for the answers of any read.
fn blank() -> Page<ANSWERS_BYTES>
    ensures { length result.bytes ≡ 1736704 }
{
    Page::blank()
}

// Takes the events one after the other, puts their answers on the page and keeps the numbers of those that are refused. Answers whether
// one was taken.
fn take_each(
    list: Lists,
    state: &mut [u64],
    page: &mut Page<ANSWERS_BYTES>,
    numbers: &mut [Option<u32>],
) -> bool {
    let mut taken = false;
    for ((class, length), number) in list.classes.iter().zip(list.lengths).zip(numbers) {
        let answer = live_box::event(state, *class, *length);
        put_live_line(page, answer);
        match answer {
            Ok(_) => taken = true,
            Err(refusal) => *number = Some(refusal.number),
        }
    }
    taken
}
