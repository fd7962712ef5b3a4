// The arguments that a program was started with, its own name among them.
ghost use Rattle.std.specs.Prelude.{◌≤◌, length};

use std::env::FillError;
use std::rt::Env;

// Puts an argument at the start of the bytes that are lent and answers its length, or 0 where it is missing or longer than these. Bytes with
// their length, since a program has fixed memory.
pub fn argument(rt: &impl Env, place: usize, bytes: &mut [u8]) -> usize
    ensures { result ≤ length bytes.new }
{
    rt.arg(place, bytes).unwrap_or(0)
}

// How many there are.
pub fn argument_count(rt: &impl Env) -> usize {
    (0..usize::MAX)
        .find(|place| !is_there(rt, *place))
        .unwrap_or(usize::MAX)
}

// One that has no room is there all the same.
fn is_there(rt: &impl Env, place: usize) -> bool {
    let mut room = [0u8; 1];
    !matches!(rt.arg(place, &mut room), Err(FillError::NotPresent))
}
