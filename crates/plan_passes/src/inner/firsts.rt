// The first PDU at fault, if there is one: tests 1, 2, 3 and 5, which look at one PDU at a time.
ghost use Rattle.std.specs.Prelude.{◌*◌, ◌≤◌, length};
ghost use Rattle.ranges.specs.Range.{Coalesced};
ghost use Rattle.ranges.specs.Store.{counted};
ghost use Rattle.planning.specs.Tests.{is_unread, is_other, is_beyond, is_unwanted};
ghost use Rattle.plan_passes.specs.Pdus.{plan_of, IsFirst};

use crate::inner::pdus::Pdus;
use nak::Identity;
use plan_packets::inner::packets::{is_beyond, is_other, is_unread, is_unwanted};

// Test 1.
pub fn first_unread(pdus: &Pdus<'_>) -> Option<usize>
    ensures { IsFirst (is_unread (plan_of pdus.now)) (length pdus.now.lengths.now) result }
{
    pdus.packets()
        .position(|packet| is_unread(packet, pdus.edition))
}

// Test 2.
pub fn first_other(pdus: &Pdus<'_>, identity: Identity) -> Option<usize>
    ensures { IsFirst (is_other (plan_of pdus.now) identity) (length pdus.now.lengths.now) result }
{
    pdus.packets()
        .position(|packet| is_other(packet, pdus.edition, identity))
}

// Test 3.
pub fn first_beyond(pdus: &Pdus<'_>) -> Option<usize>
    ensures { IsFirst (is_beyond (plan_of pdus.now)) (length pdus.now.lengths.now) result }
{
    pdus.packets()
        .position(|packet| is_beyond(packet, pdus.edition))
}

// Test 5.
pub fn first_unwanted(pdus: &Pdus<'_>, list: &[u64], count: usize) -> Option<usize>
    requires { (2 * count ≤ length list.now) × Coalesced (counted list.now count) }
    ensures { IsFirst (is_unwanted (plan_of pdus.now) (counted list.now count)) (length pdus.now.lengths.now) result }
{
    pdus.packets()
        .position(|packet| is_unwanted(packet, pdus.edition, list, count))
}
