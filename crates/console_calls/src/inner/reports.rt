// What a report asks: held and missing.
use answers::numbers::Numbers;
use console_state::inner::failure::Answered;
use console_state::inner::state::State;
use console_text::inner::print::Output;
use console_text::inner::words::Words;
use report::missing_octets::missing_octets;
use std::io::Write;

pub fn held(s: &State, words: &mut Words, out: &mut Output) -> Answered {
    let (start, end) = words.pair()?;
    show_whether(report::held::held(s.rec, s.lent(), start, end)?, out)
}

// A yes or a no, by its number.
pub fn show_whether(yes: bool, out: &mut Output) -> Answered {
    let word = match yes.in_numbers().first {
        0 => "no",
        _ => "yes",
    };
    Ok(writeln!(out, "{word}")?)
}

pub fn missing(s: &State, words: &mut Words, out: &mut Output) -> Answered {
    words.end()?;
    show_missing(missing_octets(s.rec, s.lent())?, out)
}

pub fn show_missing(octets: u64, out: &mut Output) -> Answered {
    Ok(writeln!(out, "missing {}", octets.in_numbers().first)?)
}
