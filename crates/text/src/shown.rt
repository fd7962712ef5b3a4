// What a whole line shows.
ghost use Rattle.std.specs.Prelude.{◌≡◌};
ghost use Rattle.text.specs.Reading as reading;

use crate::heading::HEADING;
use crate::{Fault, Field, Line, Row};

impl Line {
    // What a line that has ended shows, after so many others.
    #[tactic(auto, unfolding(crate::specs::Reading::shown))]
    pub fn shown(self, lines: u64) -> Result<Option<Row>, Fault>
        ensures { result ≡ reading.shown lines self }
    {
        if lines == 0 {
            return heading_shown(self.agreed);
        }
        if self.commas != 1 {
            return Err(Fault::WrongCount);
        }
        self.numbers()
    }

    // The numbers of a line, or what is wrong with the first field that has none.
    #[tactic(auto, unfolding(crate::specs::Reading::numbers, crate::specs::Reading::number_in, crate::specs::Reading::row_of))]
    fn numbers(self) -> Result<Option<Row>, Fault>
        ensures { result ≡ reading.numbers self }
    {
        let first = number_in(1, self.first)?;
        let second = number_in(2, self.second)?;
        Ok(Some(Row { first, second }))
    }
}

#[tactic(auto, unfolding(crate::specs::Reading::heading_shown, crate::specs::Reading::heading))]
fn heading_shown(agreed: Option<usize>) -> Result<Option<Row>, Fault>
    ensures { result ≡ reading.heading_shown agreed }
{
    if agreed == Some(HEADING.len()) {
        Ok(None)
    } else {
        Err(Fault::WrongHeading)
    }
}

// The number in a field, or what is wrong with it, by its place in the line.
#[tactic(auto, unfolding(crate::specs::Reading::number_in))]
fn number_in(place: u32, field: Field) -> Result<u32, Fault>
    ensures { result ≡ reading.number_in place field }
{
    match field {
        Field::Number(n) => Ok(n),
        Field::Over => Err(Fault::TooLarge(place)),
        Field::Empty | Field::Other => Err(Fault::NoNumber(place)),
    }
}
