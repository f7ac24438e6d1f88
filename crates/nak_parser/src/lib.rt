// Reading one NAK PDU into plain values.
#![tactic(auto)]

ghost use Rattle.std.specs.Prelude.{◌≡◌, IfOk};
ghost use Rattle.outcomes.specs.Answered.{answered};
ghost use Rattle.nak_parsing.specs.Parser.{read_outcome, said_in, nothing_of, parsed_of, requests_part, requests_ptr};
ghost use Rattle.nak_parsing.specs.Step.{step_case, step_outcome, place_after};

use crate::inner::{accepted, check_packet, part, refused};
use nak::{Edition, LARGEST_PDU};
use nak_header::inner::{flag_of, trailer_of};
use nak_parsing::{Found, Parsed, Said};
use nak_shape::inner::{header_in, identity_in, shape};
use octets::inner::get;
use outcomes::Refusal;

pub mod inner;

// What a packet says, or why it is refused: any octets of any length, on a link of this edition.
pub fn read_pdu(packet: &[u8], edition: Edition) -> Result<Said, Refusal>
    ensures outcome { answered nothing_of result ≡ read_outcome edition packet.now }
    ensures says { IfOk result (λ s. s ≡ said_in edition packet.now) }
{
    let total = packet.len();
    if total < 4 {
        return Err(Refusal::LengthMismatch);
    }
    let header = header_in(packet, edition);
    shape(packet, edition, header)?;
    let form = header.form;
    let f = form.field_length();
    let at = header.length + 1;
    let scope_start = get(packet, at, f);
    let scope_end = get(packet, at + f, f);
    if scope_end < scope_start {
        return Err(Refusal::ScopeReversed);
    }
    let from = at + 2 * f;
    let to = total - form.trailer_length();
    check_packet(packet, from, f, (to - from) / (2 * f))?;
    if LARGEST_PDU < total {
        return Err(Refusal::PduSize);
    }
    Ok(Said {
        identity: identity_in(packet, header),
        form,
        scope_start,
        scope_end,
        from,
        to,
    })
}

// The same in plain values, as C has it.
pub fn parse(packet: &[u8], edition: Edition) -> Parsed
    ensures { result ≡ parsed_of edition packet.now }
{
    match read_pdu(packet, edition) {
        Ok(said) => accepted(said),
        Err(r) => refused(edition, r, packet.len()),
    }
}

// The part of the packet that holds the requests, the caller's own octets.
pub fn requests<'a>(packet: &'a [u8], edition: Edition) -> &'a [u8]
    ensures { (result.now ≡ requests_part edition packet.now) × (result.ref_ptr ≡ requests_ptr edition packet.entry) }
{
    let parsed = parse(packet, edition);
    part(packet, parsed.from, parsed.to)
}

// A step from any place of any octets.
pub fn next_at(packet: &[u8], at: usize) -> Found
    ensures { (step_case result.step ≡ step_outcome packet.now at) × (result.at ≡ place_after packet.now at) }
{
    let total = packet.len();
    if total <= at {
        return Found { step: None, at };
    }
    let octet = usize::from(packet[0]);
    let f = flag_of(octet).field_length();
    let t = trailer_of(octet);
    if total - at < 2 * f + t {
        return Found { step: None, at };
    }
    let start = get(packet, at, f);
    let end = get(packet, at + f, f);
    Found {
        step: Some((start, end)),
        at: at + 2 * f,
    }
}
