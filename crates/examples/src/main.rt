// The traced examples that document 01 does not mark P, and damaged copies of its packet. What must come out stands in `stdout`,
// from the paper. The examples marked P are proved: proofs/Examples.antt.
#![tactic(auto)]

use nak::{Edition, Form, Identity};
use nak_parsing::Said;
use octets::LargeFileFlag;
use outcomes::{Refusal, Told};
use ranges::Width;
use reception::Reception;
use sequence::{Order, Sent};
use std::fmt::{Display, Formatter};
use std::{fmt, io};

const IDENTITY: Identity = Identity {
    entity_length: 1,
    number_length: 1,
    source: 1,
    number: 7,
    destination: 2,
};

// The newer edition, numbers of four octets, no trailer.
const FORM: Form = Form {
    edition: Edition::Newer,
    flag: LargeFileFlag::Normal,
    crc: false,
};

// The paper's packet: scope 0 to 1000, requests (0, 0) and (100, 200).
const PACKET: [u8; 32] = [
    0x28, 0x00, 0x19, 0x00, 0x01, 0x07, 0x02, 0x08, 0x00, 0x00, 0x00, 0x00, 0x00, 0x00, 0x03, 0xE8,
    0x00, 0x00, 0x00, 0x00, 0x00, 0x00, 0x00, 0x00, 0x00, 0x00, 0x00, 0x64, 0x00, 0x00, 0x00, 0xC8,
];

// Octets in hexadecimal, two digits each.
#[derive(Clone, Copy)]
struct Hex<'a>(&'a [u8]);

impl Display for Hex<'_> {
    fn fmt<W: fmt::Write>(&self, f: &mut Formatter<W>) -> fmt::Result {
        for octet in self.0 {
            write!(f, "{octet:02x}")?;
        }
        Ok(())
    }
}

// Writes the paper's packet into the buffer, and shows the buffer, or what it should have been.
fn show_write(rt: &impl Print, buf: &mut [u8]) -> io::Result<()> {
    let requests = [0, 0, 100, 200];
    match nak_writer::write(IDENTITY, FORM, 0, 1000, &requests, buf) {
        Err(Refusal::BufferSizeMissmatch(needed, given)) => {
            println!(rt; "refused 6 {needed} {given}")
        }
        _ => println!(rt; "pdu {}", Hex(buf)),
    }
}

// The refusal's number; behind a 3, the start and end that it carries.
fn show_refused(rt: &impl Print, r: Refusal) -> io::Result<()> {
    match r {
        Refusal::StartLargerThanEnd(start, end) => println!(rt; "refused 3 {start} {end}"),
        _ => println!(rt; "refused {}", Told::from(r).number),
    }
}

// Who sends what to whom, and for which scope.
fn show_header(rt: &impl Print, said: Said) -> io::Result<()> {
    let Identity {
        entity_length,
        number_length,
        source,
        number,
        destination,
    } = said.identity;
    let flag = match said.form.flag {
        LargeFileFlag::Normal => "normal",
        LargeFileFlag::Large => "large",
    };
    print!(rt; "nak {entity_length} {number_length} {source} {number} {destination}")?;
    print!(rt; " {flag} {} {}", said.scope_start, said.scope_end)
}

// Steps a reader from a place to its end. A packet has fewer requests than octets.
fn show_requests(rt: &impl Print, packet: &[u8], from: usize) -> io::Result<()> {
    let mut at = from;
    for _ in packet {
        let found = nak_reader::step_from(packet, at);
        let Some((start, end)) = found.step else {
            break;
        };
        print!(rt; " {start} {end}")?;
        at = found.at;
    }
    println!(rt)
}

// Reads a packet, and shows what it says, or the refusal.
fn show_read(rt: &impl Print, packet: &[u8]) -> io::Result<()> {
    match nak_parser::read_pdu(packet, Edition::Newer) {
        Ok(said) => {
            show_header(rt, said)?;
            show_requests(rt, packet, said.from)
        }
        Err(r) => show_refused(rt, r),
    }
}

// Reads the paper's packet with some octets changed: the place of each, and what stands there.
fn show_damaged(rt: &impl Print, changes: &[(usize, u8)]) -> io::Result<()> {
    let mut packet = PACKET;
    for (at, octet) in changes {
        if let Some(place) = packet.get_mut(*at) {
            *place = *octet;
        }
    }
    show_read(rt, &packet)
}

// The sequence of five ranges in PDUs of at most `largest` octets: how many PDUs, octets and the cursor, or the number refused.
fn write_sequence(rt: &impl Print, largest: usize, buf: &mut [u8]) -> io::Result<()> {
    let list = [0, 1, 2, 3, 4, 5, 6, 7, 8, 9];
    let rec = Reception {
        progress: 12,
        count: 5,
        width: Width::Wide,
        missing: false,
        sized: false,
        size: 0,
    };
    let order = Order {
        identity: IDENTITY,
        form: FORM,
        largest,
        cursor: 0,
        budget: 16,
    };
    match nak_sequence::write_nak_sequence(rec, &list, order, buf) {
        Ok(
            Sent {
                pdus,
                octets,
                cursor,
            },
        ) => println!(rt; "sent {pdus} {octets} {cursor}"),
        Err(Refusal::PduSize) => println!(rt; "refused 14"),
        Err(_) => println!(rt; "refused"),
    }
}

// With P = 32 there are two requests in a PDU, so two PDUs of 32 octets and one of 24; P = 23 has no room for one.
fn show_sequence(rt: &impl Print) -> io::Result<()> {
    let mut buf = [0u8; 512];
    write_sequence(rt, 32, &mut buf)?;
    show_read(rt, &buf[0..32])?;
    show_read(rt, &buf[32..64])?;
    show_read(rt, &buf[64..88])?;
    write_sequence(rt, 23, &mut buf)
}

fn main(rt: HostRuntime) -> io::Result<()> {
    show_write(&rt, &mut [0u8; 32])?;
    show_write(&rt, &mut [0u8; 31])?;
    show_read(&rt, &PACKET)?;
    show_read(&rt, &PACKET[..3])?;
    show_read(&rt, &PACKET[..31])?;
    show_damaged(&rt, &[(0, 0x20)])?;
    show_damaged(&rt, &[(3, 0x08)])?;
    show_damaged(&rt, &[(2, 0x18)])?;
    show_damaged(&rt, &[(7, 0x07)])?;
    show_damaged(&rt, &[(11, 0xFF)])?;
    show_damaged(&rt, &[(8, 0x01)])?;
    show_damaged(&rt, &[(31, 0x63)])?;
    show_damaged(&rt, &[(31, 0x64)])?;
    show_damaged(&rt, &[(19, 0x05)])?;
    show_damaged(&rt, &[(19, 0x05), (23, 0x05)])?;
    show_damaged(&rt, &[(27, 0x00), (31, 0x00)])?;
    show_sequence(&rt)
}
