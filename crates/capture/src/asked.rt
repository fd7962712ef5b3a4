// The numbers that the arguments ask for.
use files::Stopped;
use output::Page;
use text::Field;

// An argument as a number; of one that is none it says so, by its name. The longest that the system passes has 131,071 bytes.
pub fn argument(rt: &HostRuntime, place: usize, name: &[u8]) -> Result<u32, Stopped> {
    let mut word = [0u8; 131072];
    let length = files::argument(rt, place, &mut word);
    let mut page: Page<256> = Page::blank();
    page.put_text(b"cannot read ");
    page.put_text(name);
    match text::number(&word[..length]) {
        Field::Number(n) => return Ok(n),
        Field::Over => page.put_named(b": it is over ", u32::MAX),
        Field::Empty | Field::Other => page.put_text(b": it is not a decimal number"),
    }
    page.put_byte(10);
    files::say(&page);
    Err(Stopped::Failed)
}
