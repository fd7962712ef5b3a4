// live events STATE EVENTS: reads a list of events part by part and has those of each part taken.
ghost use Rattle.std.specs.Prelude.{◌≤◌, length};
ghost use Rattle.live_rules.specs.Layout.{state_words};

use crate::answers::print_heading;
use crate::reads::{MOST_A_READ, take};
use crate::states::load_sound;
use files::{Stopped, argument, cannot_open, first, judged, open, read_some};
use input::{MOST_ROWS, REPORT_WORDS};
use live_rules::STATE_WORDS;
use sentences::Lists;
use std::io::Read;
use text::Scan;

// Which argument names the list.
pub const EVENTS: usize = 3;

// How far a list is taken: whether one of its events was refused, how many were read, and the scan, in which only the heading is counted.
#[derive(Drop)]
struct Taken {
    refused: bool,
    events: u64,
    scan: Scan,
}

pub fn events(rt: &HostRuntime) -> Result<(), Stopped> {
    let mut state = [0u64; STATE_WORDS];
    let mut report = [0u64; REPORT_WORDS * MOST_ROWS];
    let mut lags = [0i64; MOST_ROWS];
    load_sound(rt, &mut state, &mut report, &mut lags)?;
    with_state(rt, &mut state)
}

// Prints the heading and goes on. The longest argument that the system passes has 131,071 bytes.
fn with_state(rt: &HostRuntime, state: &mut [u64]) -> Result<(), Stopped>
    requires { state_words ≤ length state.old }
{
    print_heading(rt)?;
    let mut name = [0u8; 131072];
    let length = argument(rt, EVENTS, &mut name);
    with_list(rt, &name[..length], state)
}

fn with_list(rt: &HostRuntime, name: &[u8], state: &mut [u64]) -> Result<(), Stopped>
    requires { state_words ≤ length state.old }
{
    match open(rt, name) {
        Ok(mut file) => take_all(rt, &mut file, name, state),
        Err(error) => Err(cannot_open(name, error)),
    }
}

// Takes the events to the end of the list. A loop has to end, and nothing says that a file does, so this one has a number of turns that no
// list uses up.
fn take_all(
    rt: &HostRuntime,
    file: &mut impl Read,
    name: &[u8],
    state: &mut [u64],
) -> Result<(), Stopped>
    requires { state_words ≤ length state.old }
{
    let mut taken = Taken {
        refused: false,
        events: 0,
        scan: Scan::begin(),
    };
    for _ in 0..u64::MAX {
        if !taken.take_some(rt, file, name, state)? {
            return taken.ended();
        }
    }
    Err(Stopped::Failed)
}

impl Taken {
    // Takes the events of one read, and answers whether more may come.
    fn take_some(
        &mut self,
        rt: &HostRuntime,
        file: &mut impl Read,
        name: &[u8],
        state: &mut [u64],
    ) -> Result<bool, Stopped>
        requires { state_words ≤ length state.old }
    {
        let mut classes = [0u32; MOST_A_READ];
        let mut lengths = [0u32; MOST_A_READ];
        let read = read_some(file, self.scan, &mut classes, &mut lengths).map_err(
            |error| cannot_open(name, error),
        )?;
        match read {
            Some(scan) => {
                let count = scan.lines.saturating_sub(1);
                let list = Lists {
                    classes: first(&classes, count),
                    lengths: first(&lengths, count),
                };
                self.refused |= take(rt, list, self.events, state)?;
                self.go_on(name, scan, list.classes.len())
            }
            None => self.judge(name, self.scan),
        }
    }

    // Goes on after a read of so many events, where no line was wrong.
    fn go_on(&mut self, name: &[u8], scan: Scan, count: usize) -> Result<bool, Stopped> {
        self.events = self.events.saturating_add(count as u64);
        if scan.found.is_err() {
            return self.judge(name, scan);
        }
        self.scan = Scan {
            lines: heading_of(scan),
            ..scan
        };
        Ok(true)
    }

    // No more comes: says what is wrong with the list, if something is.
    fn judge(&self, name: &[u8], scan: Scan) -> Result<bool, Stopped> {
        let lines = self.events.saturating_add(heading_of(scan));
        judged(name, Scan { lines, ..scan })?;
        Ok(false)
    }

    fn ended(self) -> Result<(), Stopped> {
        if self.refused {
            return Err(Stopped::Refused);
        }
        Ok(())
    }
}

// 1 once the heading is read.
fn heading_of(scan: Scan) -> u64 {
    scan.lines.min(1)
}
