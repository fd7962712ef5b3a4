// How a program ends: what it complains of, how a refusal begins, and the status.
ghost use Rattle.std.specs.Prelude.{◌≡◌};
ghost use Rattle.files.specs.Statuses as statuses;

use crate::Stopped;
use crate::arguments::argument;
use crate::handing::say_text;
use output::Page;
use sentences::put_refused;
use std::rt::Env;

// No program has so many arguments.
pub const NO_FILE: usize = usize::MAX;

// Where a program that is started by a script hands over how it ended.
const STATUS_FILENO: i32 = 3;

// Says a sentence of a call that is not understood.
pub fn complain(sentence: &[u8]) -> Stopped {
    say_text(sentence);
    Stopped::Failed
}

// Begins the sentence on a refusal of what the file that an argument names holds. A file that was read has a name of less than 4,096 bytes.
pub fn begin_refusal<const N: usize>(rt: &impl Env, page: &mut Page<N>, number: u32, place: usize) {
    let mut name = [0u8; 4096];
    let length = argument(rt, place, &mut name);
    put_refused(page, number, &name[..length]);
}

// The last act of a program: it hands over how it ended to the script that started it, and has no exit status of its own, since the script
// tells by that whether it came so far. Whoever wants no status leaves the descriptor closed.
pub fn end_with(ended: Result<(), Stopped>) {
    io::write_all(STATUS_FILENO, &[digit(ended), 10]);
}

#[tactic(auto, unfolding(crate::specs::Statuses::digit))]
fn digit(ended: Result<(), Stopped>) -> u8
    ensures { result ≡ statuses.digit ended }
{
    match ended {
        Ok(()) => b'0',
        Err(Stopped::Refused) => b'1',
        Err(Stopped::Failed) => b'2',
    }
}
