// live fresh TABLE STATE, live events STATE EVENTS, live report STATE: a live box whose state is kept in a file. Makes the state of a class
// table, takes events one after the other and answers each, or prints the report with the lags; to standard error it says what cannot be
// read or written, or what a refusal names and how to mend it.
#![tactic(auto)]

mod answers;
mod events;
mod fresh;
mod reads;
mod refusals;
mod reporting;
mod states;

use files::{Stopped, argument, argument_count, argument_is_input, complain, end_with};

fn main(rt: HostRuntime) {
    end_with(called(&rt));
}

// Looks at the call and goes on, by its first word and by how many arguments there are, the program's own name among them.
fn called(rt: &HostRuntime) -> Result<(), Stopped> {
    let mut word = [0u8; 8];
    let length = argument(rt, 1, &mut word);
    match (argument_count(rt), &word[..length]) {
        (4, b"fresh") => {
            of_its_own(rt, fresh::STATE)?;
            fresh::fresh(rt)
        }
        (4, b"events") => {
            of_its_own(rt, states::STATE)?;
            events::events(rt)
        }
        (3, b"report") => {
            of_its_own(rt, states::STATE)?;
            reporting::report(rt)
        }
        _ => Err(complain(
            b"cannot read: give what to do and its files, live fresh TABLE STATE, live events STATE EVENTS or live report STATE\n",
        )),
    }
}

// The state that an argument names is no standard input.
fn of_its_own(rt: &HostRuntime, state: usize) -> Result<(), Stopped> {
    if argument_is_input(rt, state) {
        return Err(complain(
            b"cannot read: the state is a file of its own and cannot be standard input; a file called - is ./-\n",
        ));
    }
    Ok(())
}
