// Names that are no UTF-8 text. Std opens none of them, but it lists what a folder holds, so that a file that is missing is told from one
// that is there.
ghost use Rattle.std.specs.Prelude.{◌≤◌, length};

use crate::errors::{EILSEQ, ENAMETOOLONG, ENOENT};
use crate::reading::first;
use std::io::Read;
use std::rt::Files;
use std::{io, str};

// The longest name that the system opens, and the longest part of one.
const LONGEST_NAME: usize = 4095;

const LONGEST_PART: usize = 255;

// Why such a name is not opened, of which so many bytes are text.
pub fn unopened(rt: &impl Files, name: &[u8], text: usize) -> io::Error {
    let from = part_begins(first(name, text as u64));
    let part = first_part(&name[from..]);
    if LONGEST_NAME < name.len() || LONGEST_PART < part.len() {
        return io::Error::from_raw_os_error(ENAMETOOLONG);
    }
    match is_listed(rt, &name[..from], part) {
        Ok(true) => io::Error::from_raw_os_error(EILSEQ),
        Ok(false) => io::Error::from_raw_os_error(ENOENT),
        Err(error) => error,
    }
}

// Where the last part of a name begins, behind its last slash.
fn part_begins(name: &[u8]) -> usize
    ensures { result ≤ length name.now }
{
    match name.iter().rposition(|byte| *byte == b'/') {
        Some(slash) => slash + 1,
        None => 0,
    }
}

// What stands before the first slash.
fn first_part(name: &[u8]) -> &[u8] {
    match name.iter().position(|byte| *byte == b'/') {
        Some(slash) => &name[..slash],
        None => name,
    }
}

// Whether a folder, where a name leads into one and else the one that the program runs in, holds a file of this name.
fn is_listed(rt: &impl Files, folder: &[u8], name: &[u8]) -> io::Result<bool> {
    let mut names = rt.open_dir(folder_text(folder))?;
    for _ in 0..u64::MAX {
        if let Some(listed) = lists(&mut names, name)? {
            return Ok(listed);
        }
    }
    Ok(false)
}

fn folder_text(folder: &[u8]) -> &str {
    match str::from_utf8(folder) {
        Ok("") | Err(_) => ".",
        Ok(text) => text,
    }
}

// Whether this name is among those of one read, each of which ends with a 0; nothing where it is not and more may come.
fn lists(names: &mut impl Read, name: &[u8]) -> io::Result<Option<bool>> {
    let mut buffer = [0u8; 4096];
    let size = names.read(&mut buffer)?;
    if size == 0 {
        return Ok(Some(false));
    }
    if buffer[..size]
        .split(|byte| *byte == 0)
        .any(|listed| listed == name)
    {
        return Ok(Some(true));
    }
    Ok(None)
}
