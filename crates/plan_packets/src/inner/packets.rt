// The tests of one packet, on a link of this edition.
ghost use Rattle.std.specs.Prelude.{◌≡◌, not, ◌++◌, ◌+◌, ◌*◌, ◌≤◌, eqb, length, drop};
ghost use Rattle.ranges.specs.Range.{range, some, Coalesced};
ghost use Rattle.ranges.specs.Store.{counted};
ghost use Rattle.nak.specs.Request.{metadata_asked};
ghost use Rattle.nak_parsing.specs.Parser.{parsed_of};
ghost use Rattle.nak_parsing.specs.Step.{requests_given};
ghost use Rattle.holding.proofs.Counting.{lengths};
ghost use Rattle.segment_store.specs.Coalesce.{maximal_runs};
ghost use Rattle.planning.specs.Tests.{same_identity, is_outside, is_more};
ghost use Rattle.planning.specs.Check.{room_for};
ghost use Rattle.plan_packets.specs.Requests.{ahead};

use crate::inner::requests::{Requests, all_missing, is_metadata, is_outside, read};
use coalescing::inner::coalesce_counted;
use lists::inner::pairs::put_pair;
use nak::{Edition, Identity};
use nak_parser::parse;

// 1: it does not read.
pub fn is_unread(packet: &[u8], edition: Edition) -> bool
    ensures { result ≡ not (eqb (parsed_of edition packet.now).refusal 0) }
{
    let parsed = parse(packet, edition);
    parsed.refusal != 0
}

// Whether two identities are the same, their lengths too.
fn same_identity(c: Identity, d: Identity) -> bool
    ensures { result ≡ same_identity c d }
{
    c.entity_length == d.entity_length
        && c.number_length == d.number_length
        && c.source == d.source
        && c.number == d.number
        && c.destination == d.destination
}

// 2: it carries another identity.
pub fn is_other(packet: &[u8], edition: Edition, identity: Identity) -> bool
    ensures { result ≡ not (same_identity (parsed_of edition packet.now).identity identity) }
{
    let parsed = parse(packet, edition);
    !same_identity(parsed.identity, identity)
}

// 3: a request other than (0, 0) does not lie within its scope.
pub fn is_beyond(packet: &[u8], edition: Edition) -> bool
    ensures { result ≡ some (is_outside (range (parsed_of edition packet.now).scope_start (parsed_of edition packet.now).scope_end))
        (requests_given edition packet.now) }
{
    let (parsed, mut requests) = read(packet, edition);
    requests.any(|(s, e)| is_outside(parsed.scope_start, parsed.scope_end, s, e))
}

// 4: its requests have so many octets, counted as often as they are asked for.
pub fn has_octets(packet: &[u8], edition: Edition, octets: u64) -> bool
    ensures { result ≡ eqb (lengths (requests_given edition packet.now)) octets }
{
    let (_, requests) = read(packet, edition);
    let mut left = octets;
    for (s, e) in requests {
        let Some(l) = left.checked_sub(e.saturating_sub(s)) else {
            return false;
        };
        left = l;
    }
    left == 0
}

// The requests ahead are written from pair m on; answers how many pairs the lent list then has. The list is the C interface's, flat.
fn put_requests(requests: Requests<'_>, scratch: &mut [u64], m: usize) -> usize
    requires { 2 * (m + length (ahead requests)) ≤ length scratch.old }
    ensures value { result ≡ m + length (ahead requests.entry) }
    ensures pairs_after { counted scratch.new result ≡ counted scratch.old m ++ ahead requests.entry }
    ensures scratch_unchanged { drop (2 * result) scratch.new ≡ drop (2 * result) scratch.old }
{
    let mut n = m;
    for (s, e) in requests {
        put_pair(scratch, n, s, e);
        n += 1;
    }
    n
}

// Its requests join the first m pairs of a lent list, which then holds the maximal runs of all; answers how many.
pub fn gather(packet: &[u8], edition: Edition, scratch: &mut [u64], m: usize) -> usize
    requires { 2 * (m + room_for packet.now) ≤ length scratch.old }
    ensures result_after { counted scratch.new result ≡ maximal_runs (counted scratch.old m ++ requests_given edition packet.now) }
    ensures upper_bound { result ≤ m + room_for packet.now }
    ensures scratch_unchanged { drop (2 * (m + room_for packet.now)) scratch.new ≡ drop (2 * (m + room_for packet.now)) scratch.old }
{
    let (_, requests) = read(packet, edition);
    let n = put_requests(requests, scratch, m);
    coalesce_counted(scratch, n)
}

// 5: it asks for an offset that is not in the list.
pub fn is_unwanted(packet: &[u8], edition: Edition, list: &[u64], count: usize) -> bool
    requires { (2 * count ≤ length list.now) × Coalesced (counted list.now count) }
    ensures { result ≡ is_more (counted list.now count) (requests_given edition packet.now) }
{
    let (_, mut requests) = read(packet, edition);
    requests.any(|(s, e)| !all_missing(list, count, s, e))
}

// 6: how often it asks for metadata.
pub fn metadata_in(packet: &[u8], edition: Edition) -> usize
    ensures value { result ≡ metadata_asked (requests_given edition packet.now) }
    ensures upper_bound { result ≤ length packet.now }
{
    let (_, requests) = read(packet, edition);
    requests.filter(|(s, e)| is_metadata(*s, *e)).count()
}
