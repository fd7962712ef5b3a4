// The numbers by which Linux tells those of its errors that std has no kind for or that are made here, and the number of one that std gives.
use std::io;

pub const ENOENT: i32 = 2;

pub const EBADF: i32 = 9;

pub const EINVAL: i32 = 22;

pub const ENAMETOOLONG: i32 = 36;

// The bytes are no text.
pub const EILSEQ: i32 = 84;

// The system's number of an error, which is 1 or more. One of std's own, as of a name with a 0 in it, is EINVAL.
pub fn number(error: io::Error) -> u32 {
    u32::try_from(error.raw_os_error().unwrap_or(EINVAL)).unwrap_or(0)
}
