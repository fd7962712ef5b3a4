// Reading a state.
ghost use Rattle.std.specs.Prelude.{◌≤◌, length};
ghost use Rattle.live_rules.specs.Layout.{state_words};
ghost use Rattle.state_files.specs.Loaded.{LoadsState};

use crate::STATE_BYTES;
use files::{Stopped, load_text};
use std::rt::{Env, Files};

// Reads the state that an argument names, and says so if it cannot be read. Answers whether the file has the size of a state; where not,
// the words stay.
pub fn load_state(
    rt: &(impl Env + Files + Input),
    argument: usize,
    state: &mut [u64],
) -> Result<bool, Stopped>
    requires { state_words ≤ length state.old }
    ensures { LoadsState state.old state.new result }
{
    let mut bytes = [0u8; STATE_BYTES];
    let size = load_text(rt, argument, &mut bytes)?;
    if size != STATE_BYTES {
        return Ok(false);
    }
    octets::read_words(&bytes, state);
    Ok(true)
}
