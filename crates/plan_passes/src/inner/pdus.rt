// The PDUs of a plan, which lie back to back, one after the other.
ghost use Rattle.std.specs.Prelude.{◌≡◌, ◌≤◌, length, sum};
ghost use Rattle.std.specs.Iterator.{YieldsFirstRef, item_count};
ghost use Rattle.planning.specs.Plan.{plan, start_of};
ghost use Rattle.planning.specs.Check.{most_pdus, sum_of};
ghost use Rattle.plan_passes.specs.Packets.{packets_in};

use nak::Edition;

// The sum of the lengths.
#[tactic(auto, using(crate::proofs::Sums::start_sum))]
pub fn sum_of(lengths: &[u16]) -> usize
    requires { length lengths.now ≤ most_pdus }
    ensures { result ≡ start_of lengths.now (length lengths.now) }
{
    lengths.iter().map(|length| usize::from(*length)).sum()
}

// PDUs of these lengths that fill a buffer, on a link of an edition.
#[derive(Drop)]
pub struct Pdus<'a> {
    pub edition: Edition,
    pub lengths: &'a [u16],
    pub buf: &'a [u8],
    ghost few: { length lengths.now ≤ most_pdus },
    ghost whole: { sum_of (plan edition lengths.now buf.now) ≡ length buf.now },
}

impl<'a> Pdus<'a> {
    // Their octets, one PDU after the other.
    pub fn packets(&self) -> Packets<'a>
        ensures all { packets_in result.lengths.now result.octets.now ≡ packets_in self.now.lengths.now self.now.buf.now }
        ensures few { length (packets_in result.lengths.now result.octets.now) ≤ most_pdus }
    {
        Packets {
            lengths: self.lengths,
            octets: self.buf,
        }
    }
}

// The PDUs still ahead: their lengths, and the octets from the next one on.
#[derive(Drop)]
pub struct Packets<'a> {
    lengths: &'a [u16],
    octets: &'a [u8],
    ghost room: { sum lengths.now ≤ length octets.now },
}

impl<'a> Iterator for Packets<'a> {
    type Item = &'a [u8];

    ghost next_gives = { YieldsFirstRef (λ s. packets_in s.lengths.now s.octets.now) };

    ghost remaining = { item_count (λ s. packets_in s.lengths.now s.octets.now) };

    fn next(&mut self) -> Option<&'a [u8]> {
        let (length, lengths) = self.lengths.split_first()?;
        let (packet, octets) = self.octets.split_at(usize::from(*length));
        *self = Packets { lengths, octets };
        Some(packet)
    }
}
