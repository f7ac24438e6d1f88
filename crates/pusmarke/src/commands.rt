// A line of commands: its name, and what it does with its words.
use console_calls::inner::{map, receiving, reports, store, timing};
use console_pdus::inner::pdus;
use console_plan::inner::plan;
use console_pool::inner::kept;
use console_pool::inner::kept::Transfer;
use console_state::inner::failure::{Answered, Failure};
use console_state::inner::state::{Room, State};
use console_text::inner::print::Output;
use console_text::inner::words::{BadWord, Words};

#[derive(Clone, Copy)]
pub enum Command {
    New,
    Pool,
    For,
    Link,
    Lend,
    Load,
    Poke,
    Show,
    Slots,
    Add,
    Insert,
    Remove,
    Coalesce,
    Within,
    Octets,
    Data,
    Metadata,
    Eof,
    Held,
    Missing,
    Map,
    Write,
    Read,
    Nak,
    Plan,
    Defer,
    Tick,
    Reset,
    Timer,
}

impl TryFrom<&[u8]> for Command {
    type Error = BadWord;

    fn try_from(word: &[u8]) -> Result<Command, BadWord> {
        let command = match word {
            b"new" => Command::New,
            b"pool" => Command::Pool,
            b"for" => Command::For,
            b"link" => Command::Link,
            b"lend" => Command::Lend,
            b"load" => Command::Load,
            b"poke" => Command::Poke,
            b"show" => Command::Show,
            b"slots" => Command::Slots,
            b"add" => Command::Add,
            b"insert" => Command::Insert,
            b"remove" => Command::Remove,
            b"coalesce" => Command::Coalesce,
            b"within" => Command::Within,
            b"octets" => Command::Octets,
            b"data" => Command::Data,
            b"metadata" => Command::Metadata,
            b"eof" => Command::Eof,
            b"held" => Command::Held,
            b"missing" => Command::Missing,
            b"map" => Command::Map,
            b"write" => Command::Write,
            b"read" => Command::Read,
            b"nak" => Command::Nak,
            b"plan" => Command::Plan,
            b"defer" => Command::Defer,
            b"tick" => Command::Tick,
            b"reset" => Command::Reset,
            b"timer" => Command::Timer,
            _ => return Err(BadWord),
        };
        Ok(command)
    }
}

// Answers a command for one transfer of the pool, whose number and name come first.
fn answer_for(s: &mut State, words: &mut Words, room: &mut Room, out: &mut Output) -> Answered {
    let transfer = Transfer::named(s, words)?;
    match Command::try_from(words.word()?)? {
        Command::Data => transfer.data(s, words, out),
        Command::Metadata => transfer.metadata(s, words, out),
        Command::Eof => transfer.eof(s, words, out),
        Command::Held => transfer.held(s, words, out),
        Command::Missing => transfer.missing(s, words, out),
        Command::Map => transfer.draw(s, words, out),
        Command::Nak => transfer.sequence(s, words, room, out),
        Command::Load => transfer.load(s, words, out),
        Command::Show => transfer.show(s, words, out),
        _ => Err(Failure::BadLine),
    }
}

// Answers a line; in a pool the commands of one reception are errors.
pub fn answer(line: &[u8], s: &mut State, room: &mut Room, out: &mut Output) -> Answered {
    if line.starts_with(b"#") {
        return Ok(());
    }
    let words = &mut Words::of(line);
    let Some(name) = words.next() else {
        return Ok(());
    };
    match Command::try_from(name)? {
        Command::New => s.begin(words, out),
        Command::Pool => kept::pool(s, words, out),
        Command::For => answer_for(s, words, room, out),
        Command::Link => s.relink(words, out),
        Command::Lend => s.lend(words, out),
        Command::Poke => s.poke(words, room, out),
        Command::Slots => s.slots(words, out),
        Command::Write => pdus::write(s, words, room, out),
        Command::Read => pdus::read(s, words, room, out),
        _ if s.pool.is_some() => Err(Failure::BadLine),
        Command::Load => s.load(words, out),
        Command::Show => s.show(words, out),
        Command::Add => store::add(s, words, out),
        Command::Insert => store::insert(s, words, out),
        Command::Remove => store::remove(s, words, out),
        Command::Coalesce => store::coalesce(s, words, out),
        Command::Within => store::within(s, words, out),
        Command::Octets => store::octets(s, words, room, out),
        Command::Data => receiving::data(s, words, out),
        Command::Metadata => receiving::metadata(s, words, out),
        Command::Eof => receiving::eof(s, words, out),
        Command::Held => reports::held(s, words, out),
        Command::Missing => reports::missing(s, words, out),
        Command::Map => map::map(s, words, out),
        Command::Nak => pdus::sequence(s, words, room, out),
        Command::Plan => plan::plan(s, words, room, out),
        Command::Defer => timing::defer(s, words, out),
        Command::Tick => timing::ticks(s, words, out),
        Command::Reset => timing::restart(s, words, out),
        Command::Timer => timing::show(s, words, out),
    }
}
