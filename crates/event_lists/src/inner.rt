// Inner: the list that an accepted event leaves. Each function asks for what its callers have checked, so none is a public call.
ghost use Rattle.std.specs.Prelude.{◌≡◌, true, ◌*◌, ◌<◌, ◌≤◌, length};
ghost use Rattle.ranges.specs.Range.{Coalesced, last_end};
ghost use Rattle.ranges.specs.Store.{counted, capacity, most_numbers};
ghost use Rattle.ranges.specs.Inner.Cut.{cut_answer, cut_list};
ghost use Rattle.reception.specs.Record.{is_waiting, waiting_ranges};
ghost use Rattle.reception.specs.Data.{kept_ranges, data_ranges};
ghost use Rattle.reception.specs.Eof.{eof_ranges};

use cutting::inner::cut;
use inserting::inner::{insert, insert_behind};
use lists::inner::pairs::put_pair;
use searches::inner::halving::{first_above, first_past};

// While waiting: the list is (0, to).
fn notice(list: &mut [u64], count: usize, to: u64) -> Option<usize>
    requires { (count ≤ 1) × ((2 * count ≤ length list.old) × (0 < to)) }
    ensures value { result ≡ cut_answer (capacity list.old) (waiting_ranges to) }
    ensures list_after { list.new ≡ cut_list (capacity list.old) (waiting_ranges to) count list.old }
{
    if list.len() / 2 == 0 {
        return None;
    }
    put_pair(list, 0, 0, to);
    Some(1)
}

// Metadata known: the offsets of (a, e) leave, and a gap from progress p up to a is added.
fn keep(list: &mut [u64], count: usize, p: u64, a: u64, e: u64) -> Option<usize>
    requires count_in_bounds { (2 * count ≤ length list.old) × ((length list.old ≤ most_numbers) × (a < e)) }
    requires coalesced { Coalesced (counted list.old count) × (last_end (counted list.old count) ≤ p) }
    ensures value { result ≡ cut_answer (capacity list.old) (kept_ranges p a e (counted list.old count)) }
    ensures list_after { list.new ≡ cut_list (capacity list.old) (kept_ranges p a e (counted list.old count)) count list.old }
{
    let room = list.len() / 2;
    if p < a {
        return insert_behind(list, count, p, a, room);
    }
    // Data in order: no range ends above progress.
    if p == a {
        return Some(count);
    }
    let i = first_past(list, count, a);
    let j = first_above(list, count, i, e - 1);
    if i == j {
        return Some(count);
    }
    cut(list, count, i, j, a, e, room).remains
}

// The list that an accepted data event leaves; room is judged on the number of its ranges.
pub fn change(
    list: &mut [u64],
    count: usize,
    p: u64,
    missing: bool,
    a: u64,
    e: u64,
) -> Option<usize>
    requires count_in_bounds { (2 * count ≤ length list.old) × ((length list.old ≤ most_numbers) × (a < e)) }
    requires coalesced { Coalesced (counted list.old count) × (last_end (counted list.old count) ≤ p) }
    requires count_bound { missing ≡ true → count ≤ 1 }
    ensures value { result ≡ cut_answer (capacity list.old) (data_ranges missing p a e (counted list.old count)) }
    ensures list_after { list.new ≡ cut_list (capacity list.old) (data_ranges missing p a e (counted list.old count)) count list.old }
{
    if missing {
        return notice(list, count, p.max(e));
    }
    keep(list, count, p, a, e)
}

// The list that an accepted EOF leaves: while waiting (0, z), empty at z = 0; else what lies between progress p and z becomes missing.
pub fn finish(list: &mut [u64], count: usize, p: u64, missing: bool, z: u64) -> Option<usize>
    requires count_in_bounds { (2 * count ≤ length list.old) × ((length list.old ≤ most_numbers) × (p ≤ z)) }
    requires coalesced { Coalesced (counted list.old count) }
    requires count_value { missing ≡ true → is_waiting p (counted list.old count) ≡ true }
    ensures value { result ≡ cut_answer (capacity list.old) (eof_ranges missing p z (counted list.old count)) }
    ensures list_after { list.new ≡ cut_list (capacity list.old) (eof_ranges missing p z (counted list.old count)) count list.old }
{
    // The size is where progress stands: nothing becomes missing.
    if p == z {
        return Some(count);
    }
    if missing {
        return notice(list, count, z);
    }
    insert(list, count, p, z, list.len() / 2)
}
