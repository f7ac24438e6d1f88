// The CRC of a packet's trailer (document 02, C-11): 16 bits, polynomial x^16 + x^12 + x^5 + 1, preset to ones.
#![tactic(auto)]

ghost use Rattle.std.specs.Prelude.{◌≡◌, ◌-◌, ◌/◌, ◌^◌, ◌<◌, take, drop};
ghost use Rattle.std.specs.Int.Bits.{bit_xor};
ghost use Rattle.crc.specs.Crc.{message, divided, crc_of};
ghost use Rattle.crc.specs.Damage.{ends_in_crc};

pub mod inner;
mod table;

// Where the table is read for the next octet.
fn place(crc: u16, octet: u8) -> usize
    ensures { (result ≡ bit_xor (crc / 2 ^ 8) octet) × (result < 256) }
{
    usize::from((crc >> 8) as u8 ^ octet)
}

// The quick path: the CRC goes on from what earlier octets left, over the octets in the places `from` up to `to`, as far as there
// are any.
pub fn go_on(crc: u16, octets: &[u8], from: usize, to: usize) -> u16
    ensures { result ≡ divided crc (message (take (to - from) (drop from octets.now))) }
{
    let remainders = &table::TABLE;
    let end = to.min(octets.len());
    let mut r = crc;
    for &octet in &octets[from.min(end)..end] {
        r = remainders[place(r, octet)] ^ (r << 8);
    }
    r
}

// The CRC of the octets in the places `from` up to `to`.
pub fn crc_of(octets: &[u8], from: usize, to: usize) -> u16
    ensures { result ≡ crc_of (take (to - from) (drop from octets.now)) }
{
    go_on(0xffff, octets, from, to)
}

// Whether the octets in the places `from` up to `to` end in their CRC: then, and only then, the CRC of them all is 0.
pub fn ends_in_crc(octets: &[u8], from: usize, to: usize) -> bool
    ensures { result ≡ ends_in_crc (take (to - from) (drop from octets.now)) }
{
    crc_of(octets, from, to) == 0
}
