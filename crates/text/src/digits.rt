// A field, and how it grows.
ghost use Rattle.std.specs.Prelude.{◌≡◌};
ghost use Rattle.text.specs.Reading as reading;
ghost use Rattle.text.specs.Stated.{Numbers};

use crate::Field;

// The field that all these bytes make.
#[tactic(auto, unfolding(crate::specs::Reading::with_bytes, crate::specs::Reading::field_of))]
pub fn number(bytes: &[u8]) -> Field
    ensures { Numbers bytes.now result }
{
    let mut field = Field::Empty;
    for byte in bytes {
        field = field.with_byte(*byte);
    }
    field
}

impl Field {
    // The field with one byte more.
    #[tactic(auto, unfolding(crate::specs::Reading::with_byte))]
    pub fn with_byte(self, byte: u8) -> Field
        ensures { result ≡ reading.with_byte self byte }
    {
        match byte {
            b'0'..=b'9' => self.with_digit(byte - b'0'),
            _ => Field::Other,
        }
    }

    #[tactic(auto, unfolding(crate::specs::Reading::with_digit))]
    fn with_digit(self, digit: u8) -> Field
        ensures { result ≡ reading.with_digit self digit }
    {
        match self {
            Field::Empty => Field::Number(digit as u32),
            Field::Number(n) => number_or_over(n as u64 * 10 + digit as u64),
            Field::Over | Field::Other => self,
        }
    }
}

fn number_or_over(n: u64) -> Field
    ensures { result ≡ reading.number_or_over n }
{
    match u32::try_from(n) {
        Ok(n) => Field::Number(n),
        Err(_) => Field::Over,
    }
}
