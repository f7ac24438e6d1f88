// Inner: not part of the public interface. Some of these have a `requires`, which their callers show.
ghost use Rattle.std.specs.Prelude.{◌≡◌, ◌+◌, ◌*◌, ◌≤◌, length};
ghost use Rattle.ranges.specs.Range.{range};
ghost use Rattle.ranges.specs.Store.{flat};
ghost use Rattle.octets.specs.Octets.{fields, with_octets};
ghost use Rattle.nak.specs.Pdu.{header_octets, identity_octets, data_octets, data_length};
ghost use Rattle.nak.specs.Inner.{metadata_first, requests_of};

use nak::{Asked, Form, Identity, NAK_CODE};
use nak_header::inner::octet_0;
use octets::inner::{put, put_all};

// The header's first four octets.
pub fn put_header(buf: &mut [u8], at: usize, form: Form, i: usize, q: usize, len: usize)
    requires { (1 ≤ i) × (i ≤ 8) × (1 ≤ q) × (q ≤ 8) × (at + 4 ≤ length buf.old) }
    ensures { buf.new ≡ with_octets buf.old at (header_octets form i q len) }
{
    put(buf, at, 1, octet_0(form));
    put(buf, at + 1, 2, len as u64);
    put(buf, at + 3, 1, ((i - 1) * 16 + (q - 1)) as u64);
}

// Source entity, sequence number, destination entity.
pub fn put_identity(buf: &mut [u8], at: usize, identity: Identity)
    requires { at + (2 * identity.entity_length + identity.number_length) ≤ length buf.old }
    ensures { buf.new ≡ with_octets buf.old at (identity_octets identity) }
{
    let i = identity.entity_length;
    let q = identity.number_length;
    put(buf, at, i, identity.source);
    put(buf, at + i, q, identity.number);
    put(buf, at + i + q, i, identity.destination);
}

// The metadata request, where it is asked for; answers the place behind it.
fn put_metadata(buf: &mut [u8], at: usize, f: usize, metadata: bool) -> usize
    requires { at + length (fields f (flat (metadata_first metadata))) ≤ length buf.old }
    ensures { (result ≡ at + length (fields f (flat (metadata_first metadata))))
        × (buf.new ≡ with_octets buf.old at (fields f (flat (metadata_first metadata)))) }
{
    if !metadata {
        return at;
    }
    put(buf, at, f, 0);
    put(buf, at + f, f, 0);
    at + f + f
}

// The data field of what is asked for, its numbers of f octets.
pub fn put_data(buf: &mut [u8], at: usize, f: usize, asked: Asked<'_>)
    requires { at + data_length f (length (flat (requests_of asked))) ≤ length buf.old }
    ensures { buf.new ≡ with_octets buf.old at (data_octets f (range asked.entry.start asked.entry.end) (requests_of asked.entry)) }
{
    put(buf, at, 1, u64::from(NAK_CODE));
    put(buf, at + 1, f, asked.start);
    put(buf, at + 1 + f, f, asked.end);
    let place = put_metadata(buf, at + 1 + f + f, f, asked.metadata);
    put_all(buf, place, f, asked.requests, 0, 2 * asked.pairs());
}
