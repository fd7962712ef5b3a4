// The sheet as text.
ghost use Rattle.std.specs.Prelude.{◌≡◌, ◌*◌, length};
ghost use Rattle.input.specs.Limits.{packets_a_step};

use crate::asked::Numbers;
use files::Stopped;
use input::{MOST_ROWS, PACKETS_A_STEP, RowMarks, SCALE, TICKS, WHOLE};
use output::Page;
use sheet::Fraction;
use words::word;

// Room for a sheet of all rows: no class has more than eight steps, and none takes more than 2,048 bytes.
const SHEET_BYTES: usize = 2048 * MOST_ROWS;

// What a sheet is made for, and the tree that it is made of.
#[derive(Clone, Copy)]
pub struct Sheet<'a> {
    pub asked: Numbers,
    pub identifiers: &'a [u32],
    pub parents: &'a [u32],
    pub depths: &'a [u32],
    pub shares: &'a [u32],
}

// A page with nothing on it, and room for any sheet.
fn blank() -> Page<SHEET_BYTES>
    ensures { length result.bytes ≡ 524288 }
{
    Page::blank()
}

impl<'a> Sheet<'a> {
    // Prints the sheet of each sending class, in row order.
    pub fn print(self, rt: &HostRuntime, senders: &RowMarks) -> Result<(), Stopped> {
        let mut page = blank();
        self.put_heading(&mut page);
        for (row, sends) in senders.iter().enumerate() {
            if *sends {
                self.put_class(&mut page, row as u32);
            }
        }
        files::print(rt, &page)
    }

    // The ticks that a step has.
    fn ticks(self) -> u64 {
        sheet::ticks(self.asked.packets)
    }

    // The bytes that a step adds.
    fn packets_bytes(self) -> u64
        ensures { result ≡ packets_a_step * self.entry.asked.largest }
    {
        PACKETS_A_STEP as u64 * self.asked.largest as u64
    }

    fn put_heading<const N: usize>(self, page: &mut Page<N>) {
        page.put_named(b"own bytes ", self.asked.own);
        page.put_named(b", largest packet ", self.asked.largest);
        page.put_text(b", three packets ");
        page.put_number(self.packets_bytes());
        page.put_named(b", packets finished ", self.asked.packets);
        page.put_text(b", ticks ");
        page.put_number(self.ticks());
        page.put_byte(10);
    }

    // Of a sending class its own bytes and its steps.
    fn put_class<const N: usize>(self, page: &mut Page<N>, row: u32) {
        page.put_named(b"\nclass ", word(self.identifiers, row));
        page.put_named(b" (row ", row);
        page.put_named(b")\n  own bytes: ", self.asked.own);
        page.put_byte(10);
        self.put_steps(page, row);
        self.put_without_ticks(page, row);
    }

    // The figure after so many steps up from a row, each with so many ticks; none where the working outgrows 64 bits.
    fn after(self, steps: u32, row: u32, ticks: u64) -> Option<Fraction> {
        let Numbers { largest, own, .. } = self.asked;
        sheet::after(steps, self.parents, self.shares, row, largest, own, ticks)
    }

    // A line for each row from the class up to the root's child, as far as the working fits, and what comes of it.
    fn put_steps<const N: usize>(self, page: &mut Page<N>, row: u32) {
        let Some(mut figure) = self.after(0, row, self.ticks()) else {
            return;
        };
        let mut at = row;
        for step in 0..word(self.depths, row) {
            let next = self.after(step + 1, row, self.ticks());
            self.put_step(page, at, figure, next);
            let Some(next) = next else {
                return;
            };
            figure = next;
            at = word(self.parents, at);
        }
        page.put_text(b"  the line finishes at most ");
        put_bytes(page, figure);
    }

    // One step up: a row's class, the figure before, the largest packets, the row's share, the ticks, the figure after.
    fn put_step<const N: usize>(
        self,
        page: &mut Page<N>,
        row: u32,
        before: Fraction,
        after: Option<Fraction>,
    ) {
        page.put_named(b"  class ", word(self.identifiers, row));
        page.put_text(b": (");
        put_figure(page, before);
        page.put_text(b" + ");
        page.put_number(self.packets_bytes());
        self.put_divided(page, word(self.shares, row));
        put_result(page, after);
    }

    // What a step does with the bytes: over the share, and with the ticks.
    fn put_divided<const N: usize>(self, page: &mut Page<N>, share: u32) {
        page.put_named(b") * ", WHOLE);
        page.put_named(b" / ", share);
        page.put_text(b" + ");
        page.put_number(self.ticks());
        page.put_named(b" / ", TICKS);
        page.put_text(b" = ");
    }

    // Where no charge on the way is rounded, what comes of the steps without their ticks, as far as that fits.
    fn put_without_ticks<const N: usize>(self, page: &mut Page<N>, row: u32) {
        let depth = word(self.depths, row);
        if !sheet::all_divide(depth, self.parents, self.shares, row) {
            return;
        }
        if let Some(figure) = self.after(depth, row, 0) {
            page.put_named(b"  without ticks, since each share above divides ", SCALE);
            page.put_text(b": at most ");
            put_bytes(page, figure);
        }
    }
}

// The figure after a step, or that there is none.
fn put_result<const N: usize>(page: &mut Page<N>, figure: Option<Fraction>) {
    match figure {
        Some(figure) => {
            put_figure(page, figure);
            page.put_byte(10);
        }
        None => {
            page.put_text(b"outgrown\n");
            page.put_text(b"  the line: no number, since the working outgrows 64 bits\n");
        }
    }
}

fn put_figure<const N: usize>(page: &mut Page<N>, figure: Fraction) {
    page.put_number(figure.numerator);
    if figure.denominator != 1 {
        page.put_byte(47);
        page.put_number(figure.denominator);
    }
}

// A figure as bytes, and rounded up where it is a fraction.
fn put_bytes<const N: usize>(page: &mut Page<N>, figure: Fraction) {
    put_figure(page, figure);
    page.put_text(b" bytes");
    if figure.denominator != 1 {
        page.put_text(b", rounded up ");
        page.put_number(sheet::whole_bytes(figure.numerator, figure.denominator));
    }
    page.put_byte(10);
}
