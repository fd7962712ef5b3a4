// Text put on lent bytes, of which the first so many are used. What finds no room is left out.
ghost use Rattle.std.specs.Prelude.{[], ◌∷◌, ◌++◌};
ghost use Rattle.output.specs.Pages.{page_of, Puts};
ghost use Rattle.output.specs.Numbers.{decimal, signed};

pub fn put_byte(page: &mut [u8], used: usize, byte: u8) -> usize
    ensures { Puts (byte ∷ []) (page_of page.old used) (page_of page.new result) }
{
    if used < page.len() {
        page[used] = byte;
        return used + 1;
    }
    used
}

pub fn put_text(page: &mut [u8], used: usize, text: &[u8]) -> usize
    ensures { Puts text.now (page_of page.old used) (page_of page.new result) }
{
    let mut used = used;
    for &byte in text {
        used = put_byte(page, used, byte);
    }
    used
}

// Digit by digit: `write!` states what it writes only where it does not fail.
pub fn put_number(page: &mut [u8], used: usize, n: u64) -> usize
    ensures { Puts (decimal n) (page_of page.old used) (page_of page.new result) }
{
    if n < 10 {
        return put_byte(page, used, 48 + n as u8);
    }
    let used = put_number(page, used, n / 10);
    put_byte(page, used, 48 + (n % 10) as u8)
}

// A word is widened at each of its calls otherwise.
pub fn put_word(page: &mut [u8], used: usize, n: u32) -> usize
    ensures { Puts (decimal n) (page_of page.old used) (page_of page.new result) }
{
    put_number(page, used, n as u64)
}

pub fn put_signed(page: &mut [u8], used: usize, n: i64) -> usize
    ensures { Puts (signed n) (page_of page.old used) (page_of page.new result) }
{
    if n < 0 {
        let used = put_byte(page, used, 45);
        return put_number(page, used, n.unsigned_abs());
    }
    put_number(page, used, n.unsigned_abs())
}

// A number, and the byte after it.
pub fn put_then(page: &mut [u8], used: usize, n: u32, byte: u8) -> usize
    ensures { Puts (decimal n ++ byte ∷ []) (page_of page.old used) (page_of page.new result) }
{
    let used = put_word(page, used, n);
    put_byte(page, used, byte)
}

// A text, and the number after it.
pub fn put_named(page: &mut [u8], used: usize, name: &[u8], n: u32) -> usize
    ensures { Puts (name.now ++ decimal n) (page_of page.old used) (page_of page.new result) }
{
    let used = put_text(page, used, name);
    put_word(page, used, n)
}
