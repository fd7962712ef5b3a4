// Replacing a state: the new one is written to a file beside the old, brought to the disk, and given its name.
ghost use Rattle.std.specs.Prelude.{◌≤◌, length};
ghost use Rattle.live_rules.specs.Layout.{state_words};

use crate::STATE_BYTES;
use crate::unwritable::cannot_store;
use files::{Stopped, argument, text_of};
use live_rules::STATE_WORDS;
use output::Page;
use std::fs::OpenFile;
use std::io::Write;
use std::rt::{Env, Files};
use std::{fs, io};

// Room for the longest name that the system passes, and for what comes behind it.
const BESIDE_BYTES: usize = 131072 + 4;

// Puts this state into the file that an argument names, in the place of what it holds; where that fails, it stays as it was, and that
// is said.
pub fn store_state(rt: &(impl Env + Files), place: usize, state: &[u64]) -> Result<(), Stopped>
    requires { state_words ≤ length state.now }
{
    let mut bytes = [0u8; STATE_BYTES];
    octets::write_words(&state[..STATE_WORDS], &mut bytes);
    let mut name = [0u8; 131072];
    let length = argument(rt, place, &mut name);
    store_named(rt, &name[..length], &bytes)
}

fn store_named(rt: &impl Files, name: &[u8], bytes: &[u8]) -> Result<(), Stopped> {
    let mut beside: Page<BESIDE_BYTES> = Page::blank();
    beside.put_text(name);
    beside.put_text(b".new");
    replace(rt, name, beside.text(), bytes).map_err(|error| cannot_store(name, error))
}

// By the file beside it, which is emptied where it is there already, and removed where a step fails.
fn replace(rt: &impl Files, name: &[u8], beside: &[u8], bytes: &[u8]) -> io::Result<()> {
    let name = text_of(name)?;
    let beside = text_of(beside)?;
    let file = fs::create(rt, beside)?;
    let step = write_and_rename(rt, file, name, beside, bytes);
    if step.is_err() {
        let _ = fs::remove_file(rt, beside);
    }
    step
}

fn write_and_rename<R: Files>(
    rt: &R,
    file: R::File,
    name: &str,
    beside: &str,
    bytes: &[u8],
) -> io::Result<()> {
    write_out(file, bytes)?;
    fs::rename(rt, beside, name)
}

// Writes the bytes, waits until they are on the disk, and closes the file.
fn write_out<F: OpenFile + Write + Drop>(mut file: F, bytes: &[u8]) -> io::Result<()> {
    file.write_all(bytes)?;
    file.sync_all()
}
