// An event that is not refused, of a state that was read: what it makes of the rows, and the words that it changes.
#![tactic(auto)]

ghost use Rattle.std.specs.Prelude.{◌≡◌, [], ◌∷◌, ℕ, ◌*◌, ◌-◌, ◌≤◌, length};
ghost use Rattle.std.proofs.lemmas.List.Edits.{sets};
ghost use Rattle.input.specs.declared.Event.TheVariants.{Arrival, Finish};
ghost use Rattle.input.specs.Limits.{most_rows};
ghost use Rattle.input.specs.Classes.{row_of};
ghost use Rattle.live_rules.specs.Limits.{most_accepted};
ghost use Rattle.live_rules.specs.Layout.{accepted_word, state_words};
ghost use Rattle.live_rules.specs.State.{Live, live_in};
ghost use Rattle.live_rules.specs.Outcomes.{doing};
ghost use Rattle.moving.specs.Arrays.{went};
ghost use Rattle.taking.specs.Taken.{ArrivalTakes, FinishTakes, Keeps, rows_kept, left_of, taken};

use arrays::{CountArrays, RowArrays};
use live_rules::ACCEPTED_WORD;
use state::State;

// What the next event's packet is called, when so many packets were accepted and so many are held.
fn next_name(accepted: u64, packets: usize) -> u32
    requires { (packets ≤ accepted) × (accepted ≤ most_accepted) }
    ensures { result ≡ 2 * accepted - packets }
{
    (2 * accepted - packets as u64) as u32
}

fn store_accepted(words: &mut [u64], accepted: u64)
    requires { state_words ≤ length words.old }
    ensures words_after { words.new ≡ sets words.old accepted_word (accepted ∷ []) }
    ensures words_len_unchanged { length words.new ≡ length words.old }
{
    words[ACCEPTED_WORD] = accepted;
}

// The n rows after an event, and how many packets were accepted, into the words.
fn store_rows(words: &mut [u64], n: usize, accepted: u64, rows: &RowArrays, counts: &CountArrays)
    requires rows_few { n ≤ most_rows }
    requires state_room { state_words ≤ length words.old }
    ensures words_after { (live : Live) → Keeps live accepted rows.now counts.now → words.new ≡ rows_kept n live words.old }
    ensures words_len_unchanged { length words.new ≡ length words.old }
{
    store_accepted(words, accepted);
    storing::store_tags(words, n, rows);
    storing::store_heads(words, n, rows);
    storing::store_counts(words, n, counts);
}

// A packet of so many bytes has arrived for class k: the packet that went on the line, if one did. The rows of the state are those after the event
// then.
pub fn take_arrival(words: &mut [u64], state: &mut State, k: usize, size: u32) -> Option<u32>
    requires state_room { state_words ≤ length words.old }
    requires takes { ArrivalTakes (live_in words.old) state.old k size }
    ensures { (class : ℕ) → row_of (live_in words.old).tree class ≡ k
        → left_of (doing (went result)) words.new ≡ taken words.old (Arrival class size) }
{
    let n = state.rows_count;
    let m = state.packets;
    let accepted = state.accepted;
    let name = next_name(accepted, m);
    let sent = moving::arrive(
        n,
        &state.tree,
        &mut state.rows,
        &mut state.counts,
        name,
        k,
        size,
    );
    store_rows(words, n, accepted + 1, &state.rows, &state.counts);
    storing::put_packet(words, m, k, size, name);
    sent
}

// The line has finished its packet, which is the root's head and one of those held.
pub fn take_finish(words: &mut [u64], state: &mut State) -> Option<u32>
    requires state_room { state_words ≤ length words.old }
    requires takes { FinishTakes (live_in words.old) state.old }
    ensures { left_of (doing (went result)) words.new ≡ taken words.old Finish }
{
    let n = state.rows_count;
    let m = state.packets;
    let accepted = state.accepted;
    let name = words::long(state.rows.heads[0] - 1);
    let class = words::wide(state.rows.head_classes[0]);
    let at = storing::find_packet(words, m, name).unwrap();
    let next = storing::next_packet(words, m, at + 1, class);
    let sent = moving::finish(
        n,
        &state.tree,
        &mut state.rows,
        &mut state.counts,
        next.word,
        next.size,
    );
    store_rows(words, n, accepted, &state.rows, &state.counts);
    storing::take_packet(words, m, at);
    sent
}
