// One event of a live box: refusals first, then what it makes of the state.
ghost use Rattle.std.specs.Prelude.{◌≡◌, ◌≢◌, ℕ, IfErr};
ghost use Rattle.std.proofs.Math.ListN as lists;
ghost use Rattle.input.specs.declared.Event.TheVariants.{Arrival, Finish};
ghost use Rattle.tables.specs.Judged.{Judged};
ghost use Rattle.live_rules.specs.State.{Live};
ghost use Rattle.live_rules.specs.Taking.{full_refused};
ghost use Rattle.live_rules.specs.Outcomes.{Took};
ghost use Rattle.taking.specs.Taken.{left_of};
ghost use Rattle.live_box.specs.Calls.{answer_of};
ghost use Rattle.live_box.specs.Met.{Read, met};

use input::{Event, Refusal, decode};
use live_rules::{MOST_ACCEPTED, MOST_HELD, STATE_WORDS};
use state::State;

// An arrival where so many packets were accepted, 21, and so many are held, 22.
fn full_refused(accepted: u64, packets: usize) -> Result<(), Refusal>
    ensures { (live : Live) (class size : ℕ) → live.accepted ≡ accepted → lists.length live.packets ≡ packets
        → Judged (full_refused live (Arrival class size)) tt result }
{
    if MOST_ACCEPTED <= accepted {
        return Err(tables::refusal(21, 0, 0));
    }
    if MOST_HELD <= packets {
        return Err(tables::refusal(22, 0, 0));
    }
    Ok(())
}

// A packet arrives at a sound state, which was read from the words: 11, 12, 13, then 21 and 22.
fn arrival(
    words: &mut [u64],
    state: &mut State,
    class: u32,
    size: u32,
) -> Result<Option<u32>, Refusal>
    requires { Read words.old state.old }
    ensures numbered { IfErr result (λ refusal. refusal.number ≢ 0) }
    ensures meets { left_of (answer_of result) words.new ≡ met words.old size (Arrival class size) }
{
    let row = tables::row_of(&state.identifiers[..state.rows_count], class);
    let k = checks::check_packet(&state.senders, 0, row, size)?;
    full_refused(state.accepted, state.packets)?;
    Ok(taking::take_arrival(words, state, k as usize, size))
}

// The line has finished its packet, with this length word: 13, 14.
fn finish(words: &mut [u64], state: &mut State, word: u32) -> Result<Option<u32>, Refusal>
    requires { Read words.old state.old }
    ensures numbered { IfErr result (λ refusal. refusal.number ≢ 0) }
    ensures meets { left_of (answer_of result) words.new ≡ met words.old word Finish }
{
    checks::check_finish(0, word, state.rows.heads[0] == 0)?;
    Ok(taking::take_finish(words, state))
}

// One event: 3, then 20, then what refuses the event; a refusal leaves the words as they are. The name of the packet that went on the line, if one
// did.
pub fn event(state: &mut [u64], class: u32, length: u32) -> Result<Option<u32>, Refusal>
    ensures numbered { IfErr result (λ refusal. refusal.number ≢ 0) }
    ensures took { Took state.old class length (left_of (answer_of result) state.new) }
{
    if state.len() < STATE_WORDS {
        return Err(tables::refusal(3, 0, 0));
    }
    let mut opened = State::zeros();
    if !opened.open(state) {
        return Err(tables::refusal(20, 0, 0));
    }
    match decode(class, length) {
        Event::Arrival { class, length } => arrival(state, &mut opened, class, length),
        Event::Finish => finish(state, &mut opened, length),
    }
}
