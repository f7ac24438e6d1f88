// Inner: tests that read the counted pairs.
ghost use Rattle.std.specs.Prelude.{◌≡◌, false, ◌&&◌, ◌*◌, ◌≤◌, leb, ltb, length, take};
ghost use Rattle.ranges.specs.Range.{range, some, inside, is_coalesced, last_end};
ghost use Rattle.ranges.specs.Store.{any_above, is_bad_store, counted, most_numbers};
ghost use Rattle.ranges.specs.Inner.Checks.{bound, is_bad_shape};

use lists::inner::pairs::{counted, end_at, start_at};
use ranges::{MOST_NUMBERS, WIDE_LIMIT};

// Whether one of the first `end` numbers is above top. No number is above the largest of 64 bits, so then none is read.
pub fn any_above(list: &[u64], end: usize, top: u64) -> bool
    requires { end ≤ length list.now }
    ensures { result ≡ any_above top (take end list.now) }
{
    top != WIDE_LIMIT && list[..end].iter().any(|&x| top < x)
}

// Whether (a, b) lies inside (s, e).
fn holds(s: u64, e: u64, a: u64, b: u64) -> bool
    ensures { result ≡ inside a b (range s e) }
{
    if s <= a { b <= e } else { false }
}

// Whether (a, b) lies inside a counted pair. By place: `any` over the pairs takes a quarter more time, or more.
pub fn any_holds(list: &[u64], count: usize, a: u64, b: u64) -> bool
    requires { 2 * count ≤ length list.now }
    ensures { result ≡ some (inside a b) (counted list.now count) }
{
    for i in 0..count {
        if holds(start_at(list, i), end_at(list, i), a, b) {
            return true;
        }
    }
    false
}

// Whether a range (s, e) may stand at place i, after one that ends at prev.
fn may_follow(i: usize, prev: u64, s: u64, e: u64) -> bool
    ensures { result ≡ (leb (bound i prev) s && ltb s e) }
{
    if i == 0 {
        return s < e;
    }
    if prev < s { s < e } else { false }
}

// Check 8: whether the counted pairs are coalesced. A turn a pair: `is_sorted_by` over the numbers, a turn each, takes a third more time.
pub fn is_coalesced(list: &[u64], count: usize) -> bool
    requires { 2 * count ≤ length list.now }
    ensures { result ≡ is_coalesced (counted list.now count) }
{
    let mut prev = 0;
    for i in 0..count {
        let e = end_at(list, i);
        if may_follow(i, prev, start_at(list, i), e) {
            prev = e;
        } else {
            return false;
        }
    }
    true
}

// The end of the last counted pair, 0 where there is none.
pub fn last_end(list: &[u64], count: usize) -> u64
    requires { 2 * count ≤ length list.now }
    ensures { result ≡ last_end (counted list.now count) }
{
    match counted(list, count) {
        [.., [_, end]] => *end,
        [] => 0,
    }
}

// What check 10 asks before it looks at a number: an odd length, more than 4,096 pairs, count above capacity.
#[tactic(auto, unfolding(ranges::specs::Inner::Checks::is_bad_shape))]
pub fn bad_shape(list: &[u64], count: usize) -> bool
    ensures value { result ≡ is_bad_shape list.now count }
    ensures room { result ≡ false → (2 * count ≤ length list.now) × (length list.now ≤ most_numbers) }
{
    list.len() % 2 == 1 || MOST_NUMBERS < list.len() || list.len() / 2 < count
}

// What checks 10 and 8 say; of a list that check 10 refuses, `coalesced` says nothing.
#[derive(Clone, Copy)]
pub struct Checked {
    pub bad: bool,
    pub coalesced: bool,
}

// Checks 10 and 8 at once. The last end of a coalesced list is its largest number, so such a list is read once.
pub fn check(list: &[u64], count: usize, top: u64) -> Checked
    ensures { (result.bad ≡ is_bad_store list.now count top)
        × (result.bad ≡ false → result.coalesced ≡ is_coalesced (counted list.now count)) }
{
    if bad_shape(list, count) {
        return Checked {
            bad: true,
            coalesced: false,
        };
    }
    if is_coalesced(list, count) {
        return Checked {
            bad: top < last_end(list, count),
            coalesced: true,
        };
    }
    Checked {
        bad: any_above(list, 2 * count, top),
        coalesced: false,
    }
}
