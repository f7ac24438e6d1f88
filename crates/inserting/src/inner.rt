// Inner: a range put into a coalesced list. Each function asks for what its caller has checked.
ghost use Rattle.std.specs.Prelude.{◌≡◌, suc, ◌*◌, ◌<◌, ◌≤◌, min, max, length};
ghost use Rattle.ranges.specs.Range.{range, Coalesced, last_end};
ghost use Rattle.ranges.specs.Store.{counted, most_numbers};
ghost use Rattle.ranges.specs.Inner.Cut.{behind, cut_answer, cut_list};
ghost use Rattle.ranges.specs.Insert.{insert};
ghost use Rattle.inserting.specs.Inner.{reaching};

use lists::inner::moves::replace;
use lists::inner::pairs::{end_at, put_end, put_pair, start_at};
use searches::inner::checks::last_end;
use searches::inner::halving::{first_above, first_past};

// The smaller of two numbers.
fn smaller(a: u64, b: u64) -> u64
    ensures { result ≡ min a b }
{
    a.min(b)
}

// The larger of two numbers.
pub fn larger(a: u64, b: u64) -> u64
    ensures { result ≡ max a b }
{
    a.max(b)
}

// The place of the first range that ends at s or above, or their number.
fn first_reaching(list: &[u64], n: usize, s: u64) -> usize
    requires n_in_bounds { 2 * n ≤ length list.now }
    requires coalesced { Coalesced (counted list.now n) }
    ensures value { result ≡ reaching s (counted list.now n) }
    ensures upper_bound { result ≤ n }
{
    if s == 0 {
        0
    } else {
        first_past(list, n, s - 1)
    }
}

// What `first_above` finds. A new range mostly joins two ranges at most, so three are looked at before the rest is halved.
fn near_above(list: &[u64], n: usize, i: usize, e: u64) -> usize
    requires i_le_n { (i ≤ n) × (2 * n ≤ length list.now) }
    requires coalesced { Coalesced (counted list.now n) }
    ensures value { result ≡ behind i (suc e) (counted list.now n) }
    ensures lower_bound { (i ≤ result) × (result ≤ n) }
{
    let near = n.min(i + 3);
    for j in i..near {
        if e < start_at(list, j) {
            return j;
        }
    }
    first_above(list, n, near, e)
}

// The range (s, e) is put into the n ranges where it is found to go, and joins those that it overlaps or touches.
fn insert_between(list: &mut [u64], n: usize, s: u64, e: u64, room: usize) -> Option<usize>
    requires n_le_room { (n ≤ room) × ((2 * room ≤ length list.old) × ((length list.old ≤ most_numbers) × (s < e))) }
    requires coalesced { Coalesced (counted list.old n) }
    ensures value { result ≡ cut_answer room (insert (range s e) (counted list.old n)) }
    ensures list_after { list.new ≡ cut_list room (insert (range s e) (counted list.old n)) n list.old }
{
    let i = first_reaching(list, n, s);
    let j = near_above(list, n, i, e);
    if i == j {
        if n == room {
            return None;
        }
        return Some(replace(list, n, i, j, &[[s, e]]));
    }
    let low = smaller(s, start_at(list, i));
    let high = larger(e, end_at(list, j - 1));
    Some(replace(list, n, i, j, &[[low, high]]))
}

// The range (s, e) is put behind the n ranges, of which none ends above s: it joins the last one if that ends at s.
pub fn insert_behind(list: &mut [u64], n: usize, s: u64, e: u64, room: usize) -> Option<usize>
    requires n_le_room { (n ≤ room) × ((2 * room ≤ length list.old) × (s < e)) }
    requires coalesced { Coalesced (counted list.old n) × (last_end (counted list.old n) ≤ s) }
    ensures value { result ≡ cut_answer room (insert (range s e) (counted list.old n)) }
    ensures list_after { list.new ≡ cut_list room (insert (range s e) (counted list.old n)) n list.old }
{
    if 0 < n {
        let l = n - 1;
        if end_at(list, l) == s {
            put_end(list, l, e);
            return Some(n);
        }
    }
    if n == room {
        return None;
    }
    put_pair(list, n, s, e);
    Some(n + 1)
}

// The range (s, e) is put into the n ranges and joins those that it overlaps or touches. There is room for so many. Behind the last of
// them it needs no search.
pub fn insert(list: &mut [u64], n: usize, s: u64, e: u64, room: usize) -> Option<usize>
    requires n_le_room { (n ≤ room) × ((2 * room ≤ length list.old) × ((length list.old ≤ most_numbers) × (s < e))) }
    requires coalesced { Coalesced (counted list.old n) }
    ensures value { result ≡ cut_answer room (insert (range s e) (counted list.old n)) }
    ensures list_after { list.new ≡ cut_list room (insert (range s e) (counted list.old n)) n list.old }
{
    if s < last_end(list, n) {
        insert_between(list, n, s, e, room)
    } else {
        insert_behind(list, n, s, e, room)
    }
}
