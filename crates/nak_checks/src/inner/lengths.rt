// How long a PDU and its parts are.
ghost use Rattle.std.specs.Prelude.{◌≡◌, ◌≤◌};
ghost use Rattle.ranges.specs.Store.{most_numbers};
ghost use Rattle.octets.specs.Flag.{field_length};
ghost use Rattle.nak.specs.Pdu.{header_length, data_length, pdu_length, per_pdu, is_too_small};
ghost use Rattle.nak.specs.Inner.{GoodLengths};

use nak::{Form, Identity};

// H, by the identifier lengths.
pub fn header_length(i: usize, q: usize) -> usize
    requires { (i ≤ 8) × (q ≤ 8) }
    ensures { result ≡ header_length i q }
{
    4 + 2 * i + q
}

// The length of a data field whose requests have so many numbers.
pub fn data_length(form: Form, numbers: usize) -> usize
    requires { data_length (field_length form.flag) numbers ≤ 18446744073709551615 }
    ensures { result ≡ data_length (field_length form.flag) numbers }
{
    let f = form.field_length();
    1 + f * (2 + numbers)
}

// The length of a PDU whose requests have so many numbers.
pub fn pdu_length(identity: Identity, form: Form, numbers: usize) -> usize
    requires { GoodLengths identity × (numbers ≤ most_numbers) }
    ensures { result ≡ pdu_length form identity numbers }
{
    let h = header_length(identity.entity_length, identity.number_length);
    h + data_length(form, numbers) + form.trailer_length()
}

// Whether a PDU of at most `largest` octets has no room for a request.
pub fn too_small(identity: Identity, form: Form, largest: usize) -> bool
    requires { GoodLengths identity }
    ensures { result ≡ is_too_small form identity largest }
{
    largest < pdu_length(identity, form, 2)
}

// k: how many requests a PDU of at most `largest` octets has room for.
pub fn per_pdu(identity: Identity, form: Form, largest: usize) -> usize
    requires { GoodLengths identity × (pdu_length form identity 2 ≤ largest) }
    ensures { result ≡ per_pdu form identity largest }
{
    let h = header_length(identity.entity_length, identity.number_length);
    let f = form.field_length();
    (largest - form.trailer_length() - h - 1 - 2 * f) / (2 * f)
}
