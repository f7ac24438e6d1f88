// The NAK PDU (CCSDS 727.0-B-5, PDU header and 5.2.6): what it is made of. The calls are in the crates nak_writer, nak_parser and
// nak_reader.
#![tactic(auto)]

ghost use Rattle.std.specs.Prelude.{◌≡◌, ◌/◌, ◌≤◌, length};
ghost use Rattle.octets.specs.Flag.{field_length, largest_of};
ghost use Rattle.nak.specs.Header.{is_reserved_set};
ghost use Rattle.nak.specs.Inner.{requests_of};
ghost use Rattle.nak.specs.Pdu.{trailer_length};
ghost use Rattle.nak.specs.Request.{is_metadata};
ghost use Rattle.ranges.specs.Range.{range};
ghost use Rattle.ranges.specs.Store.{flat};

use octets::LargeFileFlag;

// A PDU has at most 4,096 octets.
pub const LARGEST_PDU: usize = 4096;

// The directive code of a NAK.
pub const NAK_CODE: u8 = 8;

// The issue of 727.0-B that a link speaks. The older one has other version bits, and a reserved bit where the newer one has the large
// file flag.
#[derive(Clone, Copy)]
pub enum Edition {
    Older,
    Newer,
}

// What fixes the shape of a PDU: the link's edition, whether its numbers have four octets or eight, and whether it ends in a CRC.
#[derive(Clone, Copy)]
pub struct Form {
    pub edition: Edition,
    pub flag: LargeFileFlag,
    pub crc: bool,
}

impl Form {
    // F: the octets of a number.
    pub fn field_length(self) -> usize
        ensures { result ≡ field_length self.flag }
    {
        self.flag.field_length()
    }

    // The largest number that such a PDU holds.
    pub fn largest(self) -> u64
        ensures { result ≡ largest_of self.flag }
    {
        self.flag.largest()
    }

    // The octets of the trailer.
    pub fn trailer_length(self) -> usize
        ensures { result ≡ trailer_length self }
    {
        if self.crc { 2 } else { 0 }
    }

    // 15: whether the reserved bit of the older edition would be set.
    pub fn reserved_set(self) -> bool
        ensures { result ≡ is_reserved_set self.edition self.flag }
    {
        matches!(
            (self.edition, self.flag),
            (Edition::Older, LargeFileFlag::Large)
        )
    }
}

// Source entity and destination entity, identifiers of `entity_length` octets, and the transaction's sequence number, of
// `number_length` octets.
#[derive(Clone, Copy, PartialEq, Eq)]
pub struct Identity {
    pub entity_length: usize,
    pub number_length: usize,
    pub source: u64,
    pub number: u64,
    pub destination: u64,
}

// What one PDU asks for: its scope, and its requests: the one for metadata first, where it is asked for, and then the pairs of a flat
// list.
#[derive(Clone, Copy)]
pub struct Asked<'a> {
    pub start: u64,
    pub end: u64,
    pub metadata: bool,
    pub requests: &'a [u64],
}

impl<'a> Asked<'a> {
    // How many pairs of the list it asks for.
    pub fn pairs(self) -> usize
        ensures { result ≡ length self.entry.requests.now / 2 }
    {
        self.requests.len() / 2
    }

    // How many numbers its requests have.
    pub fn numbers(self) -> usize
        ensures { result ≡ length (flat (requests_of self.entry)) }
    {
        2 * (usize::from(self.metadata) + self.pairs())
    }
}

// Whether a request asks for metadata: (0, 0).
pub fn is_metadata(start: u64, end: u64) -> bool
    ensures { result ≡ is_metadata (range start end) }
{
    start == 0 && end == 0
}
