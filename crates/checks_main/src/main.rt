// Answers the questions about the checks that stand on standard input, one a line, as `stdin` explains; for a refusal it prints
// number, place and second place.
#![tactic(auto)]

ghost use Rattle.std.specs.Prelude.{◌<◌};

use arrays::TreeArrays;
use checks::ResultRoom;
use input::{Event, Refusal};
use tables::Reading;

// Room for the lists of the largest question: 257 rows, 65,537 events, and four lengths.
const WORDS: usize = 131849;

// How far a line is read: nothing, in a line that asks nothing, behind the question's letter, in its label, or in its lists.
#[derive(Clone, Copy)]
enum Stage {
    Begins,
    Comment,
    Asks,
    Label,
    Lists,
}

// What a number is for: it is a word itself; the last word, or the last two in turn, come again for so many words; or the last counts on.
#[derive(Clone, Copy)]
enum Way {
    Itself,
    Again,
    InTurn,
    CountsOn,
}

// A line as far as it is read: its letter; the words of its lists one after the other, where each list that is read ends, and how many
// there are of these; and the number that is read.
#[derive(Drop)]
struct Question {
    stage: Stage,
    letter: u8,
    words: [u32; WORDS],
    used: usize,
    ends: [usize; 7],
    lists: usize,
    way: Option<Way>,
    number: u64,
}

// ── answers ──

fn number(n: u32) {
    io::write_all(1, b" ");
    io::print_decimal(1, n as u64);
}

fn end_line() {
    io::write_all(1, b"\n");
}

// A refusal's number, place and second place; where nothing is refused, zeros.
fn print(refusal: Option<Refusal>) {
    let (of, place, second) = match refusal {
        Some(refusal) => (refusal.number, refusal.place, refusal.second),
        None => (0, 0, 0),
    };
    number(of);
    number(place);
    number(second);
    end_line();
}

// What was read of a row; zeros where the table is refused.
fn print_row(read: Option<Reading>, r: usize) {
    if r < input::MOST_ROWS {
        let tree = read.map_or(TreeArrays::zeros(), |reading| reading.tree);
        io::write_all(1, b"row");
        number(r as u32);
        number(tree.parents[r]);
        number(tree.depths[r]);
        number(tree.shares[r]);
        if read.is_some_and(|reading| reading.senders[r]) {
            io::write_all(1, b" sends");
        }
        end_line();
    }
}

fn ask_event(class: u32, length: u32) {
    match input::decode(class, length) {
        Event::Arrival { class, length } => {
            io::write_all(1, b"arrival");
            number(class);
            number(length);
        }
        Event::Finish => {
            io::write_all(1, b"finish");
        }
    }
    end_line();
}

impl Question {
    // One of the lists; empty where the line does not have it.
    fn list(&self, list: usize) -> &[u32]
        requires { list < 6 }
    {
        self.words
            .get(self.ends[list]..self.ends[list + 1])
            .unwrap_or(&[])
    }

    // One of the four lengths of the last list.
    fn length(&self, place: u32) -> usize {
        words::wide(words::word(self.list(5), place))
    }

    fn room(&self) -> ResultRoom {
        ResultRoom {
            order: self.length(0),
            report: self.length(1),
            lags: self.length(2),
            working: self.length(3),
        }
    }

    // The check of a whole input.
    fn ask_check(&self) {
        let check = checks::check(
            self.list(0),
            self.list(1),
            self.list(2),
            self.list(3),
            self.list(4),
            self.room(),
        );
        print(check.err());
    }

    // The check of its lengths alone.
    fn ask_lengths(&self) {
        let check = checks::check_lengths(
            self.list(0),
            self.list(1),
            self.list(2),
            self.list(3),
            self.list(4),
            self.room(),
        );
        print(check.err());
    }

    fn ask_table(&self) {
        let read = tables::read_table(self.list(0), self.list(1), self.list(2));
        print(read.err());
        for row in self.list(3) {
            print_row(read.ok(), words::wide(*row));
        }
    }

    // The place after the last row where no row has the class.
    fn ask_row(&self, class: u32) {
        let identifiers = self.list(1);
        let row = tables::row_of(identifiers, class).unwrap_or(identifiers.len());
        io::write_all(1, b" ");
        io::print_decimal(1, row as u64);
        end_line();
    }

    fn ask(&self) {
        match self.letter {
            b'c' => self.ask_check(),
            b'l' => self.ask_lengths(),
            b't' => self.ask_table(),
            b'r' => self.ask_row(self.words[0]),
            b'e' => ask_event(self.words[0], self.words[1]),
            _ => {}
        }
    }

    // ── questions ──

    fn begin(&mut self) {
        self.stage = Stage::Begins;
        self.used = 0;
        self.ends = [0; 7];
        self.lists = 0;
        self.way = None;
        self.number = 0;
    }

    // One word more.
    fn push(&mut self, n: u32) {
        if self.used < WORDS {
            self.words[self.used] = n;
            self.used += 1;
        }
    }

    // So much more than the word that stands so many places back.
    fn again(&self, back: usize, more: u32) -> u32 {
        match self.used.checked_sub(back) {
            Some(place) if place < WORDS => self.words[place].wrapping_add(more),
            _ => 0,
        }
    }

    fn repeat(&mut self, times: u64, back: usize, more: u32) {
        for _ in 0..times {
            self.push(self.again(back, more));
        }
    }

    // The words that the number stands for.
    fn take(&mut self) {
        match self.way {
            None => {}
            Some(Way::Itself) => self.push(u32::try_from(self.number).unwrap_or(u32::MAX)),
            Some(Way::Again) => self.repeat(self.number, 1, 0),
            Some(Way::InTurn) => self.repeat(self.number, 2, 0),
            Some(Way::CountsOn) => self.repeat(self.number, 1, 1),
        }
    }

    fn digit(&mut self, digit: u8) {
        if self.way.is_none() {
            self.way = Some(Way::Itself);
        }
        if self.number <= u32::MAX as u64 {
            self.number = self.number * 10 + digit as u64;
        }
    }

    // A byte of the lists that is no digit.
    fn mark(&mut self, byte: u8) {
        self.take();
        self.number = 0;
        self.way = way_of(byte);
        match byte {
            b'|' => self.end_list(),
            b'\n' => {
                self.end_list();
                self.ask();
                self.begin();
            }
            _ => {}
        }
    }

    // The list that is read ends here.
    fn end_list(&mut self) {
        if self.lists < 6 {
            self.lists += 1;
            self.ends[self.lists] = self.used;
        }
    }

    // The first byte of a line; a 0 is passed over.
    fn ask_by(&mut self, byte: u8) {
        self.letter = byte;
        self.stage = match byte {
            0 => Stage::Begins,
            b'#' => Stage::Comment,
            _ => Stage::Asks,
        };
    }

    // A byte of the label; the first stands between the question and it.
    fn label(&mut self, byte: u8, begun: bool) {
        if byte == b'=' {
            self.stage = Stage::Lists;
            return;
        }
        if begun {
            io::write_all(1, &[byte]);
        }
        self.stage = Stage::Label;
    }

    fn step(&mut self, byte: u8) {
        match self.stage {
            Stage::Begins => self.ask_by(byte),
            Stage::Comment => {
                if byte == b'\n' {
                    self.begin();
                }
            }
            Stage::Asks => self.label(byte, false),
            Stage::Label => self.label(byte, true),
            Stage::Lists => match byte {
                b'0'..=b'9' => self.digit(byte - b'0'),
                _ => self.mark(byte),
            },
        }
    }
}

// What the number after this byte is for.
fn way_of(byte: u8) -> Option<Way> {
    match byte {
        b'*' => Some(Way::Again),
        b'%' => Some(Way::InTurn),
        b'>' => Some(Way::CountsOn),
        _ => None,
    }
}

// All questions together have at most 65,536 bytes.
fn main() {
    let mut text = io::large_buffer();
    let n = io::read_full(0, &mut text);
    let mut question = Question {
        stage: Stage::Begins,
        letter: 0,
        words: [0; WORDS],
        used: 0,
        ends: [0; 7],
        lists: 0,
        way: None,
        number: 0,
    };
    for byte in &text[..n] {
        question.step(*byte);
    }
}
