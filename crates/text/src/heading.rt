// The heading.
ghost use Rattle.std.specs.Prelude.{◌≡◌};
ghost use Rattle.text.specs.Reading as reading;

pub const HEADING: [u8; 12] = *b"class,length";

// How many bytes of the heading a line has with one byte more; none where it is no start of the heading.
#[tactic(auto, unfolding(crate::specs::Reading::agreed_with, crate::specs::Reading::heading))]
pub fn agreed_with(agreed: Option<usize>, byte: u8) -> Option<usize>
    ensures { result ≡ reading.agreed_with agreed byte }
{
    let read = agreed?;
    let due = HEADING.get(read)?;
    if *due == byte { Some(read + 1) } else { None }
}
