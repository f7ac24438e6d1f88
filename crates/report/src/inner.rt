// Inner: the two questions on a sound record. Each function asks for what its caller has checked.
ghost use Rattle.std.specs.Prelude.{◌≡◌, not, ◌*◌, ◌<◌, ◌≤◌, length};
ghost use Rattle.ranges.specs.Range.{Coalesced, some, shares, last_end};
ghost use Rattle.ranges.specs.Store.{counted};
ghost use Rattle.holding.specs.Count.{octets_below};
ghost use Rattle.holding.specs.Held.{is_held};

use lists::inner::pairs::{end_at, start_at};
use reception::Reception;
use searches::inner::halving::first_past;

// Whether no offset of (a, b) is in the list: the first range that ends above a starts at b or above.
fn none_shared(list: &[u64], count: usize, a: u64, b: u64) -> bool
    requires count_in_bounds { 2 * count ≤ length list.now }
    requires coalesced { Coalesced (counted list.now count) }
    ensures { result ≡ not (some (shares a b) (counted list.now count)) }
{
    let i = first_past(list, count, a);
    i == count || b <= start_at(list, i)
}

// Whether metadata is known, b is at most progress and no offset of (a, b) is in the list.
pub fn is_held(rec: Reception, list: &[u64], a: u64, b: u64) -> bool
    requires count_in_bounds { 2 * rec.count ≤ length list.now }
    requires coalesced { Coalesced (counted list.now rec.count) }
    ensures { result ≡ is_held rec list.now a b }
{
    !rec.missing && b <= rec.progress && none_shared(list, rec.count, a, b)
}

// The number of offsets in the list. The lengths of its ranges are added up; they never pass the last end.
pub fn octets_in(list: &[u64], count: usize, progress: u64) -> u64
    requires count_in_bounds { 2 * count ≤ length list.now }
    requires coalesced { Coalesced (counted list.now count) × (last_end (counted list.now count) ≤ progress) }
    ensures { result ≡ octets_below progress (counted list.now count) }
{
    let mut octets = 0;
    for i in 0..count {
        octets += end_at(list, i) - start_at(list, i);
    }
    octets
}
