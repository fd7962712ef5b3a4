// Reading a file into lent bytes.
ghost use Rattle.std.specs.Prelude.{IsOkUnless};
ghost use Rattle.files.specs.Lent.{Holds, HoldsAll};
ghost use Rattle.files.specs.declared.Stopped.TheVariants.{Failed};

use crate::Stopped;
use crate::arguments::argument;
use crate::opening::open;
use crate::unreadable::{cannot_open, too_long};
use std::io;
use std::io::Read;
use std::rt::{Env, Files};

// Reads the file that an argument names, and says so if it cannot be read. Answers how many bytes it has; where that is more than were
// lent, one more than were lent. The longest argument that the system passes has 131,071 bytes.
pub fn load_text(
    rt: &(impl Env + Files + Input),
    place: usize,
    text: &mut [u8],
) -> Result<usize, Stopped>
    ensures held { Holds text.old text.new result }
    ensures failed { IsOkUnless result Failed }
{
    let mut name = [0u8; 131072];
    let length = argument(rt, place, &mut name);
    load_named(rt, &name[..length], text)
}

// Reads the capture that an argument names, and says so if it cannot be read or has more bytes than are lent.
pub fn load_capture(
    rt: &(impl Env + Files + Input),
    place: usize,
    capture: &mut [u8],
) -> Result<usize, Stopped>
    ensures held { HoldsAll capture.old capture.new result }
    ensures failed { IsOkUnless result Failed }
{
    let mut name = [0u8; 131072];
    let length = argument(rt, place, &mut name);
    load_all(rt, &name[..length], capture)
}

fn load_all(rt: &(impl Files + Input), name: &[u8], capture: &mut [u8]) -> Result<usize, Stopped>
    ensures held { HoldsAll capture.old capture.new result }
    ensures failed { IsOkUnless result Failed }
{
    let size = load_named(rt, name, capture)?;
    if capture.len() < size {
        return Err(too_long(name, capture.len()));
    }
    Ok(size)
}

fn load_named(rt: &(impl Files + Input), name: &[u8], text: &mut [u8]) -> Result<usize, Stopped>
    ensures held { Holds text.old text.new result }
    ensures failed { IsOkUnless result Failed }
{
    match read_file(rt, name, text) {
        Ok(size) => Ok(size),
        Err(error) => Err(cannot_open(name, error)),
    }
}

fn read_file(rt: &(impl Files + Input), name: &[u8], text: &mut [u8]) -> io::Result<usize>
    ensures { Holds text.old text.new result }
{
    let mut file = open(rt, name)?;
    read_all(&mut file, text)
}

// Reads until the file ends or the text is full, and then whether the file goes on. A read may give fewer bytes than it is asked for,
// so no count of turns is known and the loop stays a `while`.
fn read_all(file: &mut impl Read, text: &mut [u8]) -> io::Result<usize>
    ensures { Holds text.old text.new result }
{
    let mut used = 0;
    while used < text.len() {
        let size = file.read(&mut text[used..])?;
        if size == 0 {
            return Ok(used);
        }
        used += size;
    }
    let more = file.read(&mut [0u8; 1])?;
    Ok(used + more)
}
