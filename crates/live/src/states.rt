// The state that events and reports begin from: read and tested.
ghost use Rattle.std.specs.Prelude.{◌≤◌, length};
ghost use Rattle.live_rules.specs.Layout.{state_words};

use crate::answers::print_answer;
use crate::refusals::say_unsound;
use files::Stopped;
use state_files::load_state;

// Which argument names it.
pub const STATE: usize = 2;

// Reads the state and makes its report, by which an unsound one is told, and refused by 20. Done where there is one.
pub fn load_sound(
    rt: &HostRuntime,
    state: &mut [u64],
    report: &mut [u64],
    lags: &mut [i64],
) -> Result<(), Stopped>
    requires { state_words ≤ length state.old }
{
    let whole = load_state(rt, STATE, state)?;
    if whole && live_box::report(state, report, lags).is_ok() {
        return Ok(());
    }
    print_answer(rt, Err(tables::refusal(20, 0, 0)))?;
    say_unsound(rt);
    Err(Stopped::Refused)
}
