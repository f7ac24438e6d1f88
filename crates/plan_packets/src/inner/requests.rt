// The requests of a packet one after the other, and the tests of one of them.
ghost use Rattle.std.specs.Prelude.{◌≡◌, not, ◌*◌, ◌≤◌, length};
ghost use Rattle.std.specs.Iterator.{YieldsFirstBy, item_count};
ghost use Rattle.ranges.specs.Range.{range, Coalesced};
ghost use Rattle.ranges.specs.Store.{counted};
ghost use Rattle.nak.specs.Request.{is_metadata};
ghost use Rattle.nak_parsing.specs.Parser.{parsed_of};
ghost use Rattle.nak_parsing.specs.Step.{requests_given};
ghost use Rattle.holding.specs.Count.{is_covered};
ghost use Rattle.planning.specs.Tests.{some_offset, is_outside};
ghost use Rattle.plan_packets.specs.Requests.{ahead, as_range};

use lists::inner::pairs::{end_at, start_at};
use nak::Edition;
use nak_parser::parse;
use nak_parsing::Parsed;
use octets::LargeFileFlag;
use octets::inner::get;
use searches::inner::halving::first_past;

// The requests still ahead in a packet: its octets from the next one on, and the flag that says how long a number is.
#[derive(Drop)]
pub struct Requests<'a> {
    octets: &'a [u8],
    flag: LargeFileFlag,
}

// What reading hands back of a packet, and all of its requests.
#[tactic(auto, using(crate::proofs::Given::ordered, crate::proofs::Given::inside, crate::proofs::Given::given))]
pub fn read<'a>(packet: &'a [u8], edition: Edition) -> (Parsed, Requests<'a>)
    ensures parsed { result.0 ≡ parsed_of edition packet.now }
    ensures requests { ahead result.1 ≡ requests_given edition packet.now }
{
    let parsed = parse(packet, edition);
    let octets = &packet[parsed.from..parsed.to];
    let flag = parsed.form.flag;
    (parsed, Requests { octets, flag })
}

// Each request as its start and end.
impl<'a> Iterator for Requests<'a> {
    type Item = (u64, u64);

    ghost next_gives = { YieldsFirstBy as_range ahead };

    ghost remaining = { item_count ahead };

    fn next(&mut self) -> Option<(u64, u64)> {
        let f = self.flag.field_length();
        let (request, behind) = self.octets.split_at_checked(2 * f)?;
        self.octets = behind;
        Some((get(request, 0, f), get(request, f, f)))
    }
}

// Whether (s, e) asks for metadata.
pub fn is_metadata(s: u64, e: u64) -> bool
    ensures { result ≡ is_metadata (range s e) }
{
    s == 0 && e == 0
}

// Whether (s, e) is no metadata request and does not lie within the scope.
pub fn is_outside(start: u64, end: u64, s: u64, e: u64) -> bool
    ensures { result ≡ is_outside (range start end) (range s e) }
{
    !is_metadata(s, e) && (s < start || end < e)
}

// Whether each offset of (s, e) is in the list, which is the C interface's: flat numbers, its count beside it.
pub fn all_missing(list: &[u64], n: usize, s: u64, e: u64) -> bool
    requires n_in_bounds { 2 * n ≤ length list.now }
    requires coalesced { Coalesced (counted list.now n) }
    ensures { result ≡ not (some_offset (λ x. not (is_covered (counted list.now n) x)) (range s e)) }
{
    if e <= s {
        return true;
    }
    let i = first_past(list, n, s);
    i < n && start_at(list, i) <= s && e <= end_at(list, i)
}
