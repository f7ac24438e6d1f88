// What the console holds from line to line, and the commands that set and show it.
ghost use Rattle.std.specs.Prelude.{◌≤◌};
ghost use Rattle.console_state.specs.declared.inner.state.TheConstants.{MEMORY};

use crate::inner::failure::{Answered, Failure};
use crate::inner::marks::{Mark, Metadata, Trailer};
use console_text::inner::print::{Numbers, Output};
use console_text::inner::words;
use console_text::inner::words::{BadWord, Words};
use deferring::Deferred;
use nak::{Edition, Form};
use octets::LargeFileFlag;
use pooling::Pool;
use ranges::Width;
use reception::Reception;
use std::fmt;
use std::fmt::{Display, Formatter};
use std::io::Write;

// Numbers of the memory, and octets of a buffer.
const MEMORY: usize = 8200;

const BUFFER: usize = 66000;

// The most ranges that `new` makes room for, and the most that the memory has room for.
const MOST_RANGES: usize = 4096;

const RANGES: usize = 4100;

// What PDUs are written in and read by, until the next `link`.
#[derive(Clone, Copy)]
pub struct Link {
    pub edition: Edition,
    pub trailer: Trailer,
}

impl Link {
    pub fn form(self, flag: LargeFileFlag) -> Form {
        Form {
            edition: self.edition,
            flag,
            crc: self.trailer == Trailer::Crc,
        }
    }
}

// Where the numbers and the octets of a line are kept.
#[derive(Drop)]
pub struct Room {
    pub numbers: [u64; MEMORY],
    pub octets: [u8; BUFFER],
}

impl Room {
    pub fn new() -> Room {
        Room {
            numbers: [0; MEMORY],
            octets: [0; BUFFER],
        }
    }
}

// A function of its own: a method that hands out a part of a struct with a ghost field as a slice got no proof.
fn first_of(numbers: &mut [u64; MEMORY], n: usize) -> &mut [u64]
    requires { n ≤ MEMORY }
{
    &mut numbers[..n]
}

#[derive(Clone, Copy)]
pub struct State {
    // Numbers, of which the first `length` are lent to every call as the list.
    pub memory: [u64; MEMORY],
    pub length: usize,
    pub rec: Reception,
    pub link: Link,
    // The timer of the deferred NAK procedure.
    pub timer: Option<Deferred>,
    // The pool of transfers in place of the one reception.
    pub pool: Option<Pool>,
    ghost within: { length ≤ MEMORY },
}

impl State {
    // As after `new wide 4096` and `link newer plain`.
    pub fn new() -> State {
        State {
            memory: [0; MEMORY],
            length: 2 * MOST_RANGES,
            rec: Reception::fresh(Width::Wide),
            link: Link {
                edition: Edition::Newer,
                trailer: Trailer::Plain,
            },
            timer: None,
            pool: None,
        }
    }

    pub fn lent(&self) -> &[u64] {
        &self.memory[..self.length]
    }

    pub fn lent_mut(&mut self) -> &mut [u64] {
        let length = self.length;
        first_of(&mut self.memory, length)
    }

    // An empty list of that many ranges, and no timer.
    pub fn clear(&mut self, ranges: usize) {
        self.memory.fill(0);
        self.length = 2 * ranges.min(RANGES);
        self.timer = None;
    }

    // new: a fresh reception of that width with room for that many ranges, in place of a pool.
    pub fn begin(&mut self, words: &mut Words, out: &mut Output) -> Answered {
        let word = match words.word()? {
            b"pairs" => words.word()?,
            word => word,
        };
        let width = Width::of(word)?;
        let ranges = words.amount_to(MOST_RANGES)?;
        words.end()?;
        self.clear(ranges);
        self.rec = Reception::fresh(width);
        self.pool = None;
        Ok(writeln!(out, "ok")?)
    }

    // link: the edition, and whether there is a trailer.
    pub fn relink(&mut self, words: &mut Words, out: &mut Output) -> Answered {
        let edition = Edition::of(words.word()?)?;
        let trailer = Trailer::of(words.word()?)?;
        words.end()?;
        self.link = Link { edition, trailer };
        Ok(writeln!(out, "ok")?)
    }

    // lend: how many numbers are lent.
    pub fn lend(&mut self, words: &mut Words, out: &mut Output) -> Answered {
        let length = words.amount_to(MEMORY)?;
        words.end()?;
        self.length = length;
        Ok(writeln!(out, "ok")?)
    }

    pub fn load(&mut self, words: &mut Words, out: &mut Output) -> Answered {
        self.rec = loaded(self.rec.width, words)?;
        Ok(writeln!(out, "ok")?)
    }

    // poke: numbers go into the memory from a place on.
    pub fn poke(&mut self, words: &mut Words, room: &mut Room, out: &mut Output) -> Answered {
        let from = words.amount()?;
        let numbers = words.numbers(&mut room.numbers)?;
        if self.memory.len() < from {
            return Err(Failure::BadLine);
        }
        if self.memory.len() - from < numbers.len() {
            return Err(Failure::BadLine);
        }
        self.memory[from..from + numbers.len()].copy_from_slice(numbers);
        Ok(writeln!(out, "ok")?)
    }

    // show: the state and the counted numbers.
    pub fn show(&self, words: &mut Words, out: &mut Output) -> Answered {
        words.end()?;
        let rec = self.rec;
        let (width, length) = (rec.width.word(), self.length);
        let counted = Numbers(&self.memory[..2 * rec.count.min(RANGES)]);
        Ok(writeln!(out, "{width} {length} {}{counted}", Shown(rec))?)
    }

    // slots: the first numbers of the memory.
    pub fn slots(&self, words: &mut Words, out: &mut Output) -> Answered {
        let n = words.amount_to(MEMORY)?;
        words.end()?;
        Ok(writeln!(out, "slots{}", Numbers(&self.memory[..n]))?)
    }
}

// load: progress, the metadata mark, the count, and the size or `open`, unchecked. Where the size is not known its number is 0.
pub fn loaded(width: Width, words: &mut Words) -> Result<Reception, BadWord> {
    let progress = words.number()?;
    let metadata = Metadata::of(words.word()?)?;
    let count = words.amount()?;
    let size = match words.word()? {
        b"open" => None,
        word => Some(words::number(word)?),
    };
    words.end()?;
    Ok(Reception {
        progress,
        count,
        width,
        missing: metadata == Metadata::Missing,
        sized: size.is_some(),
        size: size.unwrap_or(0),
    })
}

// A record but its width: count, progress, the metadata mark, the size or `open`.
#[derive(Clone, Copy)]
pub struct Shown(pub Reception);

impl Display for Shown {
    fn fmt<W: fmt::Write>(&self, f: &mut Formatter<W>) -> fmt::Result {
        let Shown(rec) = *self;
        let metadata = if rec.missing {
            Metadata::Missing
        } else {
            Metadata::Known
        };
        write!(f, "{} {} {} ", rec.count, rec.progress, metadata.word())?;
        if rec.sized {
            write!(f, "{}", rec.size)
        } else {
            write!(f, "open")
        }
    }
}
