// A file, and how it is read byte by byte.
ghost use Rattle.std.specs.Prelude.{◌≡◌};
ghost use Rattle.text.specs.Reading as reading;
ghost use Rattle.text.specs.Stated.{Begins, Feeds, Finishes, Faults};

use crate::{Fault, Line, Row, Scan};

// Lines are counted as far as this.
const MANY: u64 = 9223372036854775808;

impl Scan {
    // Nothing is read yet.
    pub fn begin() -> Scan
        ensures { Begins result }
    {
        Scan {
            lines: 0,
            inside: false,
            line: Line::empty(),
            found: Ok(None),
        }
    }

    // Whether something is wrong with the line read last.
    pub fn is_wrong(&self) -> bool
        ensures { Faults self.now.found result }
    {
        self.found.is_err()
    }

    // The scan with one byte more.
    #[tactic(auto, unfolding(crate::specs::Reading::after, crate::specs::Reading::within))]
    pub fn feed(self, byte: u8) -> Scan
        ensures { Feeds self byte result }
    {
        if self.is_wrong() {
            return self;
        }
        if byte == b'\n' {
            return self.ended();
        }
        Scan {
            inside: true,
            line: self.line.longer(byte),
            found: Ok(None),
            ..self
        }
    }

    // What is wrong once the file has ended.
    #[tactic(auto, unfolding(crate::specs::Reading::at_end))]
    pub fn finish(self) -> Result<(), Fault>
        ensures { Finishes self result }
    {
        self.found?;
        if self.inside {
            return Err(Fault::NoEnd);
        }
        if self.lines == 0 {
            return Err(Fault::WrongHeading);
        }
        Ok(())
    }

    // A line has ended.
    #[tactic(auto, unfolding(crate::specs::Reading::ended))]
    fn ended(self) -> Scan
        ensures { result ≡ reading.ended self }
    {
        let found = self.line.shown(self.lines);
        Scan {
            lines: lines_after(self.lines, found),
            inside: false,
            line: Line::empty(),
            found,
        }
    }
}

#[tactic(auto, unfolding(crate::specs::Reading::lines_after))]
fn lines_after(lines: u64, found: Result<Option<Row>, Fault>) -> u64
    ensures { result ≡ reading.lines_after lines found }
{
    match found {
        Ok(_) => lines.saturating_add(1).min(MANY),
        Err(_) => lines,
    }
}
