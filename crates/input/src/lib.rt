// The words that definitions and code share about what is put in: limits and units, the two kinds of event, a refusal, and a run's answer.
#![tactic(auto)]

ghost use Rattle.std.specs.Prelude.{◌<◌};
ghost use Rattle.input.specs.Limits.{on_air_identifiers};
ghost use Rattle.input.specs.Classes.{Cuts};
ghost use Rattle.input.specs.Events.{Decodes};

use words::wide;

// ── limits and units: the numbers of specs/Limits.antt ──

// Rows of a class table, the root's among them.
pub const LEAST_ROWS: usize = 2;

pub const MOST_ROWS: usize = 256;

// How far below the root a class may stand.
pub const MOST_DEPTH: u32 = 8;

pub const MOST_IDENTIFIER: u32 = 65535;

// Identifiers that the modem tells apart.
pub const ON_AIR_IDENTIFIERS: usize = 65536;

pub const MOST_EVENTS: usize = 65536;

// Bytes of a packet.
pub const LEAST_BYTES: u32 = 1;

pub const MOST_BYTES: u32 = 9000;

// Parts of a share.
pub const LEAST_SHARE: u32 = 1;

// The parts that make a whole: the most that a share may be, and that the children of a row may have together.
pub const WHOLE: u32 = 840;

// Ticks of virtual time to a byte.
pub const TICKS: u32 = 840;

// Ticks to a byte for a share of one part.
pub const SCALE: u32 = TICKS * WHOLE;

// Words of the report for a row.
pub const REPORT_WORDS: usize = 5;

// Largest packets that each step of the promise on shares adds.
pub const PACKETS_A_STEP: u32 = 3;

// Ticks that each step adds beside one for each packet that the class finished.
pub const TICKS_A_STEP: u32 = 2;

// ── an entry for each row that there can be ──

pub type RowLongs = [u64; MOST_ROWS];

pub type RowWords = [u32; MOST_ROWS];

pub type RowMarks = [bool; MOST_ROWS];

// The row of each event's class, as far as there can be events.
pub type EventRows = [u8; MOST_EVENTS];

// A row for each identifier that the modem tells from the others.
pub type OnAirRows = [u8; ON_AIR_IDENTIFIERS];

// ── what is put in, and what is answered ──

// An event: a packet of `length` bytes has arrived for the class with this identifier, or the line has finished its packet.
#[derive(Clone, Copy)]
pub enum Event {
    Arrival { class: u32, length: u32 },
    Finish,
}

// What the two words of an event mean. A function with their names, since a `From` of a pair would not say which is which.
pub fn decode(class: u32, length: u32) -> Event
    ensures { Decodes class length result }
{
    if class == 0 {
        return Event::Finish;
    }
    Event::Arrival { class, length }
}

// An identifier as the modem sends it: its low bits.
pub fn on_air(identifier: u32) -> usize
    ensures { Cuts identifier result × (result < on_air_identifiers) }
{
    wide(identifier) % ON_AIR_IDENTIFIERS
}

// Why an input is refused, and where: the error of whatever checks one. The rules, C's answer and the sentences go by the number. In the
// definitions (`Refusals: nothing`) number 0 refuses nothing; code never makes that one.
#[derive(Clone, Copy)]
pub struct Refusal {
    pub number: u32,
    pub place: u32,
    pub second: u32,
}

// A run's answer as four words, as the definitions (`Outcome`), C and the printed answer have it: number 0 where it is done, else the
// refusal; and how many packets went on the line. In code it is a `Result`.
#[derive(Clone, Copy)]
pub struct Answer {
    pub number: u32,
    pub place: u32,
    pub second: u32,
    pub count: u32,
}
