// NAK PDUs: written, read, and the sequence.
ghost use Rattle.std.specs.Prelude.{◌≤◌, length};

use answers::PusmarkeAnswer;
use answers::numbers::Numbers;
use console_state::inner::failure::{Answered, Failure, Refused};
use console_state::inner::marks::{Mark, Trailer};
use console_state::inner::state::{Link, Room, State};
use console_text::inner::print::{Hex, Output};
use console_text::inner::words::{BadWord, Words};
use nak::{Edition, Form, Identity};
use nak_parser::requests;
use nak_parsing::Parsed;
use nak_reader::{read_fields, step_from};
use nak_shape::inner::header_in;
use octets::LargeFileFlag;
use sequence::{Order, Sent};
use std::io::Write;

// The words that `write`, `nak` and `plan` begin with: the lengths of the identifiers, source, number, destination.
pub fn identity_in(words: &mut Words) -> Result<Identity, BadWord> {
    let entity_length = words.amount()?;
    let number_length = words.amount()?;
    let source = words.number()?;
    let number = words.number()?;
    let destination = words.number()?;
    Ok(Identity {
        entity_length,
        number_length,
        source,
        number,
        destination,
    })
}

// The PDUs' flag; the rest of their form is the link's.
fn form_in(words: &mut Words, link: Link) -> Result<Form, BadWord> {
    Ok(link.form(LargeFileFlag::of(words.word()?)?))
}

// write: one PDU, its requests the words behind the first nine.
pub fn write(s: &State, words: &mut Words, room: &mut Room, out: &mut Output) -> Answered {
    let identity = identity_in(words)?;
    let form = form_in(words, s.link)?;
    let start = words.number()?;
    let end = words.number()?;
    let length = words.amount()?;
    let requests = words.numbers(&mut room.numbers)?;
    let buf = room.octets.get_mut(..length).ok_or(Failure::BadLine)?;
    nak_writer::write(identity, form, start, end, requests, buf)?;
    Ok(writeln!(out, "pdu {}", Hex(buf))?)
}

fn show_identity(identity: Identity, out: &mut Output) -> Answered {
    let Identity {
        entity_length,
        number_length,
        source,
        number,
        destination,
    } = identity;
    Ok(write!(
        out,
        "nak {entity_length} {number_length} {source} {number} {destination}"
    )?)
}

// Steps the reader from a place to its end; the part that holds the requests has more octets than they are.
fn show_requests(packet: &[u8], said: Parsed, out: &mut Output) -> Answered {
    let mut at = said.next;
    for _ in requests(packet, said.form.edition) {
        let found = step_from(packet, at);
        let Some((start, end)) = found.step else {
            break;
        };
        write!(out, " {start} {end}")?;
        at = found.at;
    }
    Ok(writeln!(out)?)
}

// What the reader says of a packet, or its refusal, which the reader gives in numbers.
fn said_of(packet: &[u8], edition: Edition) -> Result<Parsed, Failure> {
    let said = read_fields(packet, edition);
    if said.refusal == 0 {
        return Ok(said);
    }
    Err(Failure::Refused(Refused(PusmarkeAnswer {
        refusal: said.refusal,
        first: said.start,
        second: said.end,
        third: 0,
    })))
}

// read: what a packet says, and its requests.
pub fn read(s: &State, words: &mut Words, room: &mut Room, out: &mut Output) -> Answered {
    let packet = words.octets(&mut room.octets)?;
    let said = said_of(packet, s.link.edition)?;
    let trailer = if said.form.crc {
        Trailer::Crc
    } else {
        Trailer::Plain
    };
    show_identity(said.identity, out)?;
    write!(
        out,
        " {} {} {} {}",
        said.form.flag.word(),
        trailer.word(),
        said.scope_start,
        said.scope_end
    )?;
    show_requests(packet, said, out)
}

// The words of `nak`.
#[derive(Clone, Copy)]
pub struct Asked {
    pub order: Order,
    // The buffer's length.
    pub length: usize,
}

impl Asked {
    pub fn of(words: &mut Words, link: Link) -> Result<Asked, BadWord> {
        let identity = identity_in(words)?;
        let form = form_in(words, link)?;
        let largest = words.amount()?;
        let cursor = words.amount()?;
        let budget = words.amount()?;
        let length = words.amount()?;
        words.end()?;
        Ok(Asked {
            order: Order {
                identity,
                form,
                largest,
                cursor,
                budget,
            },
            length,
        })
    }
}

// The length of the first PDU of these octets, by its own header; all of them where no header fits.
fn pdu_length(octets: &[u8], edition: Edition) -> usize
    ensures { result ≤ length octets.now }
{
    let all = octets.len();
    if all < 4 {
        return all;
    }
    let header = header_in(octets, edition);
    header.length.saturating_add(header.data_length).min(all)
}

// A line for each PDU that was written, and then how many there are, their octets and the new cursor.
pub fn show_sent(sent: Sent, written: &[u8], edition: Edition, out: &mut Output) -> Answered {
    let told = sent.in_numbers();
    let mut rest = &written[..written.len().min(sent.octets)];
    for _ in 0..sent.pdus {
        let (pdu, others) = rest.split_at(pdu_length(rest, edition));
        writeln!(out, "pdu {}", Hex(pdu))?;
        rest = others;
    }
    Ok(writeln!(out, "sent {} {} {}", told.first, told.second, told.third)?)
}

pub fn sequence(s: &State, words: &mut Words, room: &mut Room, out: &mut Output) -> Answered {
    let asked = Asked::of(words, s.link)?;
    let buf = room.octets.get_mut(..asked.length).ok_or(Failure::BadLine)?;
    let sent = nak_sequence::write_nak_sequence(s.rec, s.lent(), asked.order, buf)?;
    show_sent(sent, buf, s.link.edition, out)
}
