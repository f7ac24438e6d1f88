// Inner: not part of the public interface. Some of these have a `requires`, which their callers show.
ghost use Rattle.std.specs.Prelude.{◌≡◌, ◌+◌, ◌*◌, ◌-◌, ◌≤◌, length, take, drop};
ghost use Rattle.octets.specs.Octets.{with_octets};
ghost use Rattle.nak.specs.Pdu.{trailer_length, front, trailer, pdu};
ghost use Rattle.nak.specs.Inner.{asking, GoodLengths};

use crc::inner::put_trailer;
use nak::{Asked, Form, Identity};
use nak_checks::inner::lengths::{data_length, header_length};
use nak_octets::inner::{put_data, put_header, put_identity};

// A PDU but for its trailer, at a place of a larger buffer. Answers the place behind it.
fn put_front(buf: &mut [u8], at: usize, identity: Identity, form: Form, asked: Asked<'_>) -> usize
    requires { GoodLengths identity
        × (at + length (pdu (asking form identity asked)) ≤ length buf.old) }
    ensures { (result ≡ at + length (front (asking form identity asked.entry)))
        × (buf.new ≡ with_octets buf.old at (front (asking form identity asked.entry))) }
{
    let i = identity.entity_length;
    let q = identity.number_length;
    let len = data_length(form, asked.numbers());
    put_header(buf, at, form, i, q, len + form.trailer_length());
    put_identity(buf, at + 4, identity);
    let place = at + header_length(i, q);
    put_data(buf, place, form.field_length(), asked);
    place + len
}

// The trailer of the octets in the places `at` up to `to`, where the form has one. Answers the place behind it.
fn put_end(buf: &mut [u8], at: usize, to: usize, form: Form) -> usize
    requires { to + trailer_length form ≤ length buf.old }
    ensures { (result ≡ to + trailer_length form)
        × (buf.new ≡ with_octets buf.old to (trailer form (take (to - at) (drop at buf.old)))) }
{
    if !form.crc {
        return to;
    }
    put_trailer(buf, at, to);
    to + 2
}

// A PDU at a place of a larger buffer. Answers the place behind it.
pub fn write_at(
    buf: &mut [u8],
    at: usize,
    identity: Identity,
    form: Form,
    asked: Asked<'_>,
) -> usize
    requires { GoodLengths identity × (at + length (pdu (asking form identity asked)) ≤ length buf.old) }
    ensures { (result ≡ at + length (pdu (asking form identity asked.entry)))
        × (buf.new ≡ with_octets buf.old at (pdu (asking form identity asked.entry))) }
{
    let to = put_front(buf, at, identity, form, asked);
    put_end(buf, at, to, form)
}
