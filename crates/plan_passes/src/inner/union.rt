// The union of all requests in a lent list: test 4, and whether it is what is missing.
ghost use Rattle.std.specs.Prelude.{◌≡◌, true, false, ◌++◌, ◌+◌, ◌*◌, ◌<◌, ◌≤◌, length, drop, MatchOption, MatchResult};
ghost use Rattle.ranges.specs.Range.{Coalesced};
ghost use Rattle.ranges.specs.Store.{counted, wide_limit};
ghost use Rattle.nak_parsing.specs.Step.{requests_given};
ghost use Rattle.segment_store.specs.Coalesce.{maximal_runs};
ghost use Rattle.planning.specs.Plan.{asked};
ghost use Rattle.planning.specs.Tests.{first_below, asks_again, is_repeat};
ghost use Rattle.planning.specs.Check.{room_for};
ghost use Rattle.plan_passes.specs.Pdus.{plan_of};

use crate::inner::pdus::Pdus;
use nak::Edition;
use plan_packets::inner::packets::{gather, has_octets};
use report::inner::octets_in;

// The requests of a packet join m maximal runs: how many runs there are then, unless a request repeats an offset. None does
// exactly if they add as many octets as they have. No number is above top, a parameter since with u64::MAX itself no goal closes.
fn take_in(
    packet: &[u8],
    edition: Edition,
    scratch: &mut [u64],
    m: usize,
    top: u64,
) -> Option<usize>
    requires packet_in_bounds { 2 * (m + room_for packet.now) ≤ length scratch.old }
    requires coalesced { Coalesced (counted scratch.old m) × (wide_limit ≤ top) }
    ensures runs { MatchOption result (asks_again (counted scratch.old m) (requests_given edition packet.now) ≡ true)
        (λ n. (asks_again (counted scratch.old m) (requests_given edition packet.now) ≡ false)
        × (counted scratch.new n ≡ maximal_runs (counted scratch.old m ++ requests_given edition packet.now)) × (n ≤ m + room_for packet.now)) }
    ensures scratch_unchanged { drop (2 * (m + room_for packet.now)) scratch.new ≡ drop (2 * (m + room_for packet.now)) scratch.old }
{
    let before = octets_in(scratch, m, top);
    let count = gather(packet, edition, scratch, m);
    let after = octets_in(scratch, count, top);
    has_octets(packet, edition, after - before).then_some(count)
}

// Test 4: the number of maximal runs of all requests, which the lent list takes, or the first PDU that repeats an offset.
pub fn first_repeat(pdus: &Pdus<'_>, scratch: &mut [u64]) -> Result<usize, usize>
    requires { 2 * room_for pdus.now.buf.now ≤ length scratch.old }
    ensures runs { MatchResult result
        (λ m. (first_below (is_repeat (plan_of pdus.now)) (length pdus.now.lengths.now) ≡ length pdus.now.lengths.now)
        × (counted scratch.new m ≡ maximal_runs (asked (plan_of pdus.now))) × (2 * m ≤ length scratch.new))
        (λ k. (k ≡ first_below (is_repeat (plan_of pdus.now)) (length pdus.now.lengths.now)) × (k < length pdus.now.lengths.now)) }
    ensures scratch_unchanged { drop (2 * room_for pdus.now.buf.now) scratch.new ≡ drop (2 * room_for pdus.now.buf.now) scratch.old }
{
    let mut m = 0;
    for (k, packet) in pdus.packets().enumerate() {
        let Some(n) = take_in(packet, pdus.edition, scratch, m, u64::MAX) else {
            return Err(k);
        };
        m = n;
    }
    Ok(m)
}

// Whether the first m pairs of one list are the first n of the other. A list is the C interface's: flat numbers, its count beside it.
pub fn same_pairs(scratch: &[u64], m: usize, list: &[u64], n: usize) -> bool
    requires { (2 * m ≤ length scratch.now) × (2 * n ≤ length list.now) }
    ensures { (result ≡ true → counted scratch.now m ≡ counted list.now n)
        × (counted scratch.now m ≡ counted list.now n → result ≡ true) }
{
    scratch[..2 * m] == list[..2 * n]
}
