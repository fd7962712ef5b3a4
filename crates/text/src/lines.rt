// A line, and how it grows.
ghost use Rattle.std.specs.Prelude.{◌≡◌};
ghost use Rattle.text.specs.Reading as reading;

use crate::heading::agreed_with;
use crate::{Field, Line};

impl Line {
    pub fn empty() -> Line
        ensures { result ≡ reading.empty_line }
    {
        Line {
            agreed: Some(0),
            commas: 0,
            first: Field::Empty,
            second: Field::Empty,
            held: false,
        }
    }

    // The line with one byte more, which is no LF. A CR is held back, since it is no part of the line if the line ends here.
    #[tactic(auto, unfolding(crate::specs::Reading::longer))]
    pub fn longer(self, byte: u8) -> Line
        ensures { result ≡ reading.longer self byte }
    {
        let sure = self.settled();
        if byte == b'\r' {
            return Line { held: true, ..sure };
        }
        sure.grown(byte)
    }

    // The line with the CR that it holds, if it holds one: more of the line follows.
    #[tactic(auto, unfolding(crate::specs::Reading::settled))]
    fn settled(self) -> Line
        ensures { result ≡ reading.settled self }
    {
        if self.held { self.grown(b'\r') } else { self }
    }

    // The line with one byte more that is part of it.
    #[tactic(auto, unfolding(crate::specs::Reading::grown))]
    fn grown(self, byte: u8) -> Line
        ensures { result ≡ reading.grown self byte }
    {
        Line {
            agreed: agreed_with(self.agreed, byte),
            commas: commas_with(self.commas, byte),
            first: field_with(self.commas, byte, 0, self.first),
            second: field_with(self.commas, byte, 1, self.second),
            held: false,
        }
    }
}

#[tactic(auto, unfolding(crate::specs::Reading::commas_with))]
fn commas_with(commas: u32, byte: u8) -> u32
    ensures { result ≡ reading.commas_with commas byte }
{
    if byte == b',' {
        commas.saturating_add(1).min(2)
    } else {
        commas
    }
}

// The field at this place: it grows where the line has come to it.
#[tactic(auto, unfolding(crate::specs::Reading::field_with))]
fn field_with(commas: u32, byte: u8, place: u32, field: Field) -> Field
    ensures { result ≡ reading.field_with commas byte place field }
{
    if byte == b',' || commas != place {
        return field;
    }
    field.with_byte(byte)
}
