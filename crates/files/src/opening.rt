// Opening the file that a name stands for, which may be standard input.
use crate::Stopped;
use crate::arguments::argument;
use crate::ending::complain;
use crate::errors::EILSEQ;
use crate::unlisted::unopened;
use sentences::is_input;
use std::io::Read;
use std::rt::{Env, Files};
use std::{fs, io, str};

// What a name stands for, once it is open: a file, or standard input.
#[derive(Drop)]
pub enum Opened<F, I> {
    File(F),
    Input(I),
}

impl<F: Read, I: Read> Read for Opened<F, I> {
    fn read(&mut self, buf: &mut [u8]) -> io::Result<usize> {
        match self {
            Opened::File(file) => file.read(buf),
            Opened::Input(input) => input.read(buf),
        }
    }
}

pub fn open<R: Files + Input>(rt: &R, name: &[u8]) -> io::Result<Opened<R::File, R::Reader>> {
    if is_input(name) {
        return Ok(Opened::Input(rt.reader()));
    }
    match str::from_utf8(name) {
        Ok(text) => Ok(Opened::File(fs::open(rt, text)?)),
        Err(error) => Err(unopened(rt, name, error.valid_up_to())),
    }
}

// A name as the text that std makes a file of. One that is none is refused, as by file systems that take text alone.
pub fn text_of(name: &[u8]) -> io::Result<&str> {
    str::from_utf8(name).map_err(|_| io::Error::from_raw_os_error(EILSEQ))
}

// Whether both of the first two arguments stand for standard input.
pub fn input_twice(rt: &impl Env) -> bool {
    argument_is_input(rt, 1) && argument_is_input(rt, 2)
}

// Says that they do.
pub fn twice() -> Stopped {
    complain(b"cannot read: standard input is named twice; give one of the two as a file\n")
}

// Whether one argument does. A longer one than the room for it does not.
pub fn argument_is_input(rt: &impl Env, place: usize) -> bool {
    let mut name = [0u8; 8];
    let length = argument(rt, place, &mut name);
    is_input(&name[..length])
}
