// The timer of the deferred NAK procedure.
use console_state::inner::failure::{Answered, Failure};
use console_state::inner::state::State;
use console_text::inner::print::Output;
use console_text::inner::words::Words;
use deferred::make::make;
use deferred::reset::reset;
use deferred::tick::tick;
use deferring::tick::TickAnswer;
use deferring::{Activity, Deferred};
use std::io::Write;

// The most ticks of one line.
const MOST_TICKS: u64 = 1000000;

// defer: a new timer, to which each event goes from now on. Where it is refused, an earlier one stays.
pub fn defer(s: &mut State, words: &mut Words, out: &mut Output) -> Answered {
    let (d, limit) = words.pair()?;
    s.timer = Some(make(d, limit)?);
    Ok(writeln!(out, "ok")?)
}

// The word for what a tick answers, of one that is not quiet.
fn told(answer: TickAnswer) -> Option<&'static str> {
    match answer {
        TickAnswer::Quiet => None,
        TickAnswer::Ask => Some("ask"),
        TickAnswer::Limit => Some("limit"),
    }
}

// Ticked one at a time until the first that is not quiet, at most n: what the last of them told, and how many were made.
fn run(timer: &mut Deferred, n: u64) -> (&'static str, u64) {
    for made in 1..=n {
        let done = tick(*timer);
        *timer = done.timer;
        if let Some(word) = told(done.answer) {
            return (word, made);
        }
    }
    ("quiet", n)
}

pub fn ticks(s: &mut State, words: &mut Words, out: &mut Output) -> Answered {
    let n = words.last_number()?;
    if !(1..=MOST_TICKS).contains(&n) {
        return Err(Failure::BadLine);
    }
    let mut timer = s.timer.ok_or(Failure::BadLine)?;
    let (word, made) = run(&mut timer, n);
    s.timer = Some(timer);
    Ok(writeln!(out, "{word} {made}")?)
}

pub fn restart(s: &mut State, words: &mut Words, out: &mut Output) -> Answered {
    words.end()?;
    let timer = s.timer.ok_or(Failure::BadLine)?;
    let done = reset(timer, s.rec, s.lent());
    done.answer?;
    s.timer = Some(done.timer);
    Ok(writeln!(out, "ok")?)
}

fn word_of(activity: Activity) -> &'static str {
    match activity {
        Activity::Idle => "idle",
        Activity::Active => "active",
        Activity::Deaf => "deaf",
    }
}

pub fn show(s: &State, words: &mut Words, out: &mut Output) -> Answered {
    words.end()?;
    let timer = s.timer.ok_or(Failure::BadLine)?;
    let activity = word_of(timer.activity);
    Ok(writeln!(out, "timer {activity} {} {}", timer.left, timer.counter)?)
}
