// Inner: not part of the public interface. Some of these have a `requires`, which their callers show.
ghost use Rattle.std.specs.Prelude.{◌≡◌, [], ◌≤◌, ◌<◌, length};
ghost use Rattle.outcomes.specs.Outcome.{accepted};
ghost use Rattle.outcomes.specs.Checks.{first_of, verdict_case};
ghost use Rattle.nak_parsing.specs.Parser.{packet_crc, header_in, entity_length_in, number_length_in, header_length_in, packet_identity};
ghost use Rattle.nak_parsing.specs.Parser.{is_wrong_length, wrong_trailer, is_wrong_data, shape_checks};

use crc::ends_in_crc;
use nak::{Edition, Identity, NAK_CODE};
use nak_checks::inner::lengths::header_length;
use nak_header::inner::{form_of, wrong_fixed};
use nak_parsing::inner::Header;
use octets::inner::get;
use outcomes::Refusal;

// 16 for the header H, the length field and the packet's length; the trailer has t octets.
pub fn wrong_length(total: usize, h: usize, len: usize, t: usize) -> bool
    requires { (h ≤ 28) × (len < 65536) × (t ≤ 2) }
    ensures { result ≡ is_wrong_length total h len t }
{
    len < 1 + t || total != h + len
}

// 21, by the packet's CRC flag.
pub fn wrong_trailer(packet: &[u8], crc: bool) -> bool
    requires { crc ≡ packet_crc packet.now }
    ensures { result ≡ wrong_trailer packet.now }
{
    crc && !ends_in_crc(packet, 0, packet.len())
}

// 16 for the data field, its numbers of f octets.
pub fn wrong_data(len: usize, f: usize) -> bool
    requires { (1 ≤ f) × (f ≤ 8) }
    ensures { result ≡ is_wrong_data len f }
{
    len < 1 + 2 * f || (len - (1 + 2 * f)) % (2 * f) != 0
}

// What the header's first four octets say.
pub fn header_in(packet: &[u8], edition: Edition) -> Header
    requires { 4 ≤ length packet.now }
    ensures { result ≡ header_in edition packet.now }
{
    let octet = usize::from(packet[3]);
    let entity_length = octet / 16 % 8 + 1;
    let number_length = octet % 8 + 1;
    Header {
        form: form_of(edition, usize::from(packet[0])),
        entity_length,
        number_length,
        length: header_length(entity_length, number_length),
        data_length: get(packet, 1, 2) as usize,
    }
}

// The checks of a packet of at least four octets, up to the scope.
pub fn shape(packet: &[u8], edition: Edition, header: Header) -> Result<(), Refusal>
    requires { (4 ≤ length packet.now) × (header ≡ header_in edition packet.now) }
    ensures { verdict_case result ≡ first_of (shape_checks edition packet.now) (accepted []) }
{
    if wrong_fixed(edition, usize::from(packet[0]), usize::from(packet[3])) {
        return Err(Refusal::BadHeader);
    }
    let h = header.length;
    let len = header.data_length;
    let form = header.form;
    let t = form.trailer_length();
    if wrong_length(packet.len(), h, len, t) {
        return Err(Refusal::LengthMismatch);
    }
    if wrong_trailer(packet, form.crc) {
        return Err(Refusal::BadTrailer);
    }
    if packet[h] != NAK_CODE {
        return Err(Refusal::NotNak);
    }
    if wrong_data(len - t, form.field_length()) {
        return Err(Refusal::LengthMismatch);
    }
    Ok(())
}

// Source entity, sequence number, destination entity.
#[tactic(auto, using(crate::proofs::Room::room))]
pub fn identity_in(packet: &[u8], header: Header) -> Identity
    requires { (header_length_in packet.now ≤ length packet.now) × (header.entity_length ≡ entity_length_in packet.now) × (header.number_length ≡ number_length_in packet.now) }
    ensures { result ≡ packet_identity packet.now }
{
    let i = header.entity_length;
    let q = header.number_length;
    Identity {
        entity_length: i,
        number_length: q,
        source: get(packet, 4, i),
        number: get(packet, 4 + i, q),
        destination: get(packet, 4 + i + q, i),
    }
}
