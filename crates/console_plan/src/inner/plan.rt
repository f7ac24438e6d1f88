// plan: mission planning's PDUs, checked against the record.
use console_pdus::inner::pdus::identity_in;
use console_state::inner::failure::Answered;
use console_state::inner::state::{Room, State};
use console_text::inner::print::Output;
use console_text::inner::words::{BadWord, Words};
use planner::check_plan;
use std::io::Write;

// The most PDUs of a line.
const MOST_PDUS: usize = 64;

// The words are the identity, the number of lengths, the lengths; the octets, or none. The requests are sorted where a line's numbers are
// kept: there is room for those of every line.
pub fn plan(s: &State, words: &mut Words, room: &mut Room, out: &mut Output) -> Answered {
    let identity = identity_in(words)?;
    let pdus = words.amount_to(MOST_PDUS)?;
    let mut lengths = [0u16; MOST_PDUS];
    for length in &mut lengths[..pdus] {
        *length = u16::try_from(words.number()?).map_err(|_| BadWord)?;
    }
    let octets = words.octets(&mut room.octets)?;
    check_plan(
        s.rec,
        s.lent(),
        identity,
        s.link.edition,
        &lengths[..pdus],
        octets,
        &mut room.numbers,
    )?;
    Ok(writeln!(out, "fits")?)
}
