// The reception events. Where there is a timer, each goes to it too.
use answers::numbers::Numbers;
use console_state::inner::failure::Answered;
use console_state::inner::state::State;
use console_text::inner::print::Output;
use console_text::inner::words::Words;
use deferred::data::deferred_data_core;
use deferred::eof::deferred_eof_core;
use deferred::metadata::deferred_metadata_core;
use event_cores::data::data_core;
use event_cores::eof::eof_core;
use event_cores::metadata::metadata_core;
use outcomes::Refusal;
use reception::Reception;
use reception::data::Received;
use std::io::Write;

// An accepted event: what it did, and the count and progress after it.
fn show_event(done: &str, rec: Reception, out: &mut Output) -> Answered {
    Ok(writeln!(out, "{done} {} {}", rec.count, rec.progress)?)
}

pub fn show_data(done: Received, rec: Reception, out: &mut Output) -> Answered {
    let word = match done.in_numbers().first {
        0 => "noticed",
        _ => "kept",
    };
    show_event(word, rec, out)
}

pub fn show_ended(rec: Reception, out: &mut Output) -> Answered {
    show_event("ended", rec, out)
}

fn receive_data(s: &mut State, offset: u64, length: u64) -> Result<Received, Refusal> {
    let rec = s.rec;
    match s.timer {
        None => {
            let done = data_core(rec, s.lent_mut(), offset, length);
            s.rec = done.rec;
            done.answer
        }
        Some(timer) => {
            let done = deferred_data_core(timer, rec, s.lent_mut(), offset, length);
            s.rec = done.rec;
            s.timer = Some(done.heard.timer);
            done.heard.answer
        }
    }
}

pub fn data(s: &mut State, words: &mut Words, out: &mut Output) -> Answered {
    let (offset, length) = words.pair()?;
    let done = receive_data(s, offset, length)?;
    show_data(done, s.rec, out)
}

fn receive_metadata(s: &mut State) -> Result<(), Refusal> {
    match s.timer {
        None => {
            let done = metadata_core(s.rec, s.lent());
            s.rec = done.rec;
            done.answer
        }
        Some(timer) => {
            let done = deferred_metadata_core(timer, s.rec, s.lent());
            s.rec = done.rec;
            s.timer = Some(done.heard.timer);
            done.heard.answer
        }
    }
}

pub fn metadata(s: &mut State, words: &mut Words, out: &mut Output) -> Answered {
    words.end()?;
    receive_metadata(s)?;
    Ok(writeln!(out, "known")?)
}

fn receive_eof(s: &mut State, size: u64) -> Result<(), Refusal> {
    let rec = s.rec;
    match s.timer {
        None => {
            let done = eof_core(rec, s.lent_mut(), size);
            s.rec = done.rec;
            done.answer
        }
        Some(timer) => {
            let done = deferred_eof_core(timer, rec, s.lent_mut(), size);
            s.rec = done.rec;
            s.timer = Some(done.heard.timer);
            done.heard.answer
        }
    }
}

pub fn eof(s: &mut State, words: &mut Words, out: &mut Output) -> Answered {
    let size = words.last_number()?;
    receive_eof(s, size)?;
    show_ended(s.rec, out)
}
