// Inner: what an accepted event leaves of one transfer's ranges, in the pool's list. The event is tried in the slots that the transfer
// holds; only where they are too few and it may grow, room for one more is made.
ghost use Rattle.std.specs.Prelude.{◌≡◌, true, false, cond, suc, ◌+◌, ◌*◌, ◌<◌, ◌≤◌, length};
ghost use Rattle.ranges.specs.Range.{Coalesced, last_end};
ghost use Rattle.ranges.specs.Inner.Cut.{cut_answer};
ghost use Rattle.reception.specs.Record.{is_waiting};
ghost use Rattle.reception.specs.Data.{data_ranges};
ghost use Rattle.reception.specs.Eof.{eof_ranges};
ghost use Rattle.resizing.specs.Inner.{LiesIn, ranges_at, room_at, cut_at};

use crate::inner::place::{Place, close_up, make_room};
use event_lists::inner::{change, finish};

// The data event where it leaves one range more.
fn change_grown(
    list: &mut [u64],
    place: Place,
    p: u64,
    missing: bool,
    a: u64,
    e: u64,
) -> Option<usize>
    requires lies { LiesIn place list.old × ((2 * (place.total + 1) ≤ length list.old) × (a < e)) }
    requires coalesced { Coalesced (ranges_at place list.old) × (last_end (ranges_at place list.old) ≤ p) }
    requires few { missing ≡ true → place.count ≤ 1 }
    requires grows { place.count < length (data_ranges missing p a e (ranges_at place list.old)) }
    ensures value { result ≡ cut_answer (suc place.count) (data_ranges missing p a e (ranges_at place list.old)) }
    ensures list_after { list.new ≡ cut_at (suc place.count) place.at place.count place.total (data_ranges missing p a e (ranges_at place list.old)) list.old }
{
    make_room(list, place);
    change(
        &mut list[2 * place.at..2 * (place.at + (place.count + 1))],
        place.count,
        p,
        missing,
        a,
        e,
    )
}

// The data event.
pub fn change_in(
    list: &mut [u64],
    place: Place,
    p: u64,
    missing: bool,
    a: u64,
    e: u64,
) -> Option<usize>
    requires lies { LiesIn place list.old × (a < e) }
    requires coalesced { Coalesced (ranges_at place list.old) × (last_end (ranges_at place list.old) ≤ p) }
    requires few { missing ≡ true → place.count ≤ 1 }
    requires free { place.full ≡ false → 2 * (place.total + 1) ≤ length list.old }
    ensures value { result ≡ cut_answer (room_at place) (data_ranges missing p a e (ranges_at place list.old)) }
    ensures list_after { list.new ≡ cut_at (room_at place) place.at place.count place.total (data_ranges missing p a e (ranges_at place list.old)) list.old }
{
    let left = change(
        &mut list[2 * place.at..2 * (place.at + place.count)],
        place.count,
        p,
        missing,
        a,
        e,
    );
    match left {
        Some(n) => {
            close_up(list, place, n);
            Some(n)
        }
        None if place.full => None,
        None => change_grown(list, place, p, missing, a, e),
    }
}

// The EOF where it leaves one range more.
fn finish_grown(list: &mut [u64], place: Place, p: u64, missing: bool, z: u64) -> Option<usize>
    requires lies { LiesIn place list.old × ((2 * (place.total + 1) ≤ length list.old) × (p ≤ z)) }
    requires coalesced { Coalesced (ranges_at place list.old) }
    requires waiting { missing ≡ true → is_waiting p (ranges_at place list.old) ≡ true }
    requires grows { place.count < length (eof_ranges missing p z (ranges_at place list.old)) }
    ensures value { result ≡ cut_answer (suc place.count) (eof_ranges missing p z (ranges_at place list.old)) }
    ensures list_after { list.new ≡ cut_at (suc place.count) place.at place.count place.total (eof_ranges missing p z (ranges_at place list.old)) list.old }
{
    make_room(list, place);
    finish(
        &mut list[2 * place.at..2 * (place.at + (place.count + 1))],
        place.count,
        p,
        missing,
        z,
    )
}

// The EOF.
pub fn finish_in(list: &mut [u64], place: Place, p: u64, missing: bool, z: u64) -> Option<usize>
    requires lies { LiesIn place list.old × (p ≤ z) }
    requires coalesced { Coalesced (ranges_at place list.old) }
    requires waiting { missing ≡ true → is_waiting p (ranges_at place list.old) ≡ true }
    requires free { place.full ≡ false → 2 * (place.total + 1) ≤ length list.old }
    ensures value { result ≡ cut_answer (room_at place) (eof_ranges missing p z (ranges_at place list.old)) }
    ensures list_after { list.new ≡ cut_at (room_at place) place.at place.count place.total (eof_ranges missing p z (ranges_at place list.old)) list.old }
{
    let left = finish(
        &mut list[2 * place.at..2 * (place.at + place.count)],
        place.count,
        p,
        missing,
        z,
    );
    match left {
        Some(n) => {
            close_up(list, place, n);
            Some(n)
        }
        None if place.full => None,
        None => finish_grown(list, place, p, missing, z),
    }
}
