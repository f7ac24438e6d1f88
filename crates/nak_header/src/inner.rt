// Inner: not part of the public interface.
ghost use Rattle.std.specs.Prelude.{◌≡◌, cond};
ghost use Rattle.nak.specs.Header.{fixed0, octet0, fixed_bits0, wrong_fixed, flag_of, crc_flag_of, form_of};

use nak::{Edition, Form};
use octets::LargeFileFlag;

// Octet 0 but for the CRC flag and the lowest bit.
fn fixed_bits(edition: Edition) -> u8
    ensures { result ≡ fixed0 edition }
{
    match edition {
        Edition::Older => 0b0000_1000,
        Edition::Newer => 0b0010_1000,
    }
}

// Octet 0 of a PDU of this form.
pub fn octet_0(form: Form) -> u64
    ensures { result ≡ octet0 form }
{
    let large = matches!(form.flag, LargeFileFlag::Large);
    u64::from(fixed_bits(form.edition)) + u64::from(form.crc) * 2 + u64::from(large)
}

// What an octet 0 has at the places of the fixed bits.
fn fixed_bits_in(edition: Edition, o0: usize) -> usize
    ensures { result ≡ fixed_bits0 edition o0 }
{
    match edition {
        Edition::Older => o0 / 4 * 4 + o0 % 2,
        Edition::Newer => o0 / 4 * 4,
    }
}

// 15.
#[tactic(auto, unfolding(nak::specs::Header::wrong_fixed))]
pub fn wrong_fixed(edition: Edition, o0: usize, o3: usize) -> bool
    ensures { result ≡ wrong_fixed edition o0 o3 }
{
    fixed_bits_in(edition, o0) != usize::from(fixed_bits(edition))
        || o3 / 128 * 128 + o3 / 8 % 2 * 8 != 0
}

// The large file flag of octet 0.
pub fn flag_of(octet: usize) -> LargeFileFlag
    ensures { result ≡ flag_of octet }
{
    if octet % 2 == 0 {
        LargeFileFlag::Normal
    } else {
        LargeFileFlag::Large
    }
}

// Whether octet 0 says that there is a trailer.
fn crc_flag_of(octet: usize) -> bool
    ensures { result ≡ crc_flag_of octet }
{
    octet / 2 % 2 == 1
}

// And so how many octets it has.
pub fn trailer_of(octet: usize) -> usize
    ensures { result ≡ cond (crc_flag_of octet) 2 0 }
{
    if crc_flag_of(octet) { 2 } else { 0 }
}

// The form that octet 0 says, on a link of this edition.
pub fn form_of(edition: Edition, octet: usize) -> Form
    ensures { result ≡ form_of edition octet }
{
    Form {
        edition,
        flag: flag_of(octet),
        crc: crc_flag_of(octet),
    }
}
