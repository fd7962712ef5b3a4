// Text put on a page: bytes of a fixed number, and how many of them are used. What finds no room is left out.
#![tactic(auto)]

ghost use Rattle.std.specs.Prelude.{◌≡◌, ◌≤◌, [], ◌∷◌, ◌++◌, length, take};
ghost use Rattle.output.specs.Pages as pages;
ghost use Rattle.output.specs.Pages.{page_of, Puts};
ghost use Rattle.output.specs.Numbers.{decimal, signed};

mod lent;

pub use lent::{put_byte, put_named, put_number, put_signed, put_text, put_then, put_word};
use std::marker::Model;

#[derive(Drop)]
pub struct Page<const N: usize> {
    pub bytes: [u8; N],
    pub used: usize,
}

impl<const N: usize> Model for Page<N> {
    ghost Value = { pages.Page };

    ghost view = { λ p. page_of p.bytes p.used };

    ghost invariant = { λ p. p.used ≤ length p.bytes };
}

impl<const N: usize> Page<N> {
    // Nothing on it. What its bytes are is not said: a proof that looks at them would count them all.
    pub fn blank() -> Self
        ensures unused { result.used ≡ 0 }
        ensures size { length result.bytes ≡ N }
    {
        Page {
            bytes: [0; N],
            used: 0,
        }
    }

    // What is put on it so far.
    pub fn text(&self) -> &[u8]
        ensures { result.now ≡ take self.now.used self.now.bytes }
    {
        &self.bytes[..self.used]
    }

    pub fn put_byte(&mut self, byte: u8)
        ensures { Puts (byte ∷ []) self.old self.new }
    {
        self.used = put_byte(&mut self.bytes, self.used, byte);
    }

    pub fn put_text(&mut self, text: &[u8])
        ensures { Puts text.now self.old self.new }
    {
        self.used = put_text(&mut self.bytes, self.used, text);
    }

    pub fn put_number(&mut self, n: u64)
        ensures { Puts (decimal n) self.old self.new }
    {
        self.used = put_number(&mut self.bytes, self.used, n);
    }

    pub fn put_word(&mut self, n: u32)
        ensures { Puts (decimal n) self.old self.new }
    {
        self.used = put_word(&mut self.bytes, self.used, n);
    }

    pub fn put_signed(&mut self, n: i64)
        ensures { Puts (signed n) self.old self.new }
    {
        self.used = put_signed(&mut self.bytes, self.used, n);
    }

    // A number, and the byte after it.
    pub fn put_then(&mut self, n: u32, after: u8)
        ensures { Puts (decimal n ++ after ∷ []) self.old self.new }
    {
        self.used = put_then(&mut self.bytes, self.used, n, after);
    }

    // A text, and the number after it.
    pub fn put_named(&mut self, name: &[u8], number: u32)
        ensures { Puts (name.now ++ decimal number) self.old self.new }
    {
        self.used = put_named(&mut self.bytes, self.used, name, number);
    }
}
