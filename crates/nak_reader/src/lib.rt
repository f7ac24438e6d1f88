// A reader over the caller's octets. The work is in `nak_parser`.
#![tactic(auto)]

ghost use Rattle.std.specs.Prelude.{◌≡◌};
ghost use Rattle.nak_parsing.specs.Parser.{parsed_of, requests_part, requests_ptr};
ghost use Rattle.nak_parsing.specs.Step.{step_case, step_outcome, place_after};
ghost use Rattle.nak_reader.specs.Reader.{reader_of, reader_after};

use nak::Edition;
use nak_parsing::{Found, Parsed};

// The caller's packet, and the place of the next request.
#[derive(Clone, Copy)]
pub struct NakReader<'a> {
    pub packet: &'a [u8],
    pub at: usize,
}

// What reading hands back: the refusal's number, 0 where the packet is accepted, and what the packet says (`parsed`); a reader of
// the requests; the requests as the caller's own octets.
#[derive(Clone, Copy)]
pub struct ReadNak<'a> {
    pub parsed: Parsed,
    pub reader: NakReader<'a>,
    pub requests: &'a [u8],
}

// What a step hands back: one request or the end, and the reader after it.
#[derive(Clone, Copy)]
pub struct Taken<'a> {
    pub step: Option<(u64, u64)>,
    pub reader: NakReader<'a>,
}

// Reads a packet, on a link of this edition.
pub fn read<'a>(packet: &'a [u8], edition: Edition) -> ReadNak<'a>
    ensures { (result.parsed ≡ parsed_of edition packet.now)
        × ((result.reader ≡ reader_of edition packet.entry)
        × ((result.requests.now ≡ requests_part edition packet.now)
        × (result.requests.ref_ptr ≡ requests_ptr edition packet.entry))) }
{
    let parsed = nak_parser::parse(packet, edition);
    let requests = nak_parser::inner::part(packet, parsed.from, parsed.to);
    ReadNak {
        parsed,
        reader: NakReader {
            packet,
            at: parsed.next,
        },
        requests,
    }
}

// A step of any reader.
pub fn next_request<'a>(reader: NakReader<'a>) -> Taken<'a>
    ensures { (step_case result.step ≡ step_outcome reader.entry.packet.now reader.entry.at)
        × (result.reader ≡ reader_after reader.entry) }
{
    let found = nak_parser::next_at(reader.packet, reader.at);
    Taken {
        step: found.step,
        reader: NakReader {
            packet: reader.packet,
            at: found.at,
        },
    }
}

// A step of the reader that stands at a place of a packet.
pub fn step_from(packet: &[u8], at: usize) -> Found
    ensures { (step_case result.step ≡ step_outcome packet.now at) × (result.at ≡ place_after packet.now at) }
{
    let taken = next_request(NakReader { packet, at });
    Found {
        step: taken.step,
        at: taken.reader.at,
    }
}

// What `read` says of a packet.
pub fn read_fields(packet: &[u8], edition: Edition) -> Parsed
    ensures { result ≡ parsed_of edition packet.now }
{
    read(packet, edition).parsed
}
