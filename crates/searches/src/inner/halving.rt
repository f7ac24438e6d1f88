// Inner: places in a coalesced list. Its starts and its ends ascend, so they are found by halving.
ghost use Rattle.std.specs.Prelude.{◌≡◌, suc, ◌*◌, ◌≤◌, length};
ghost use Rattle.ranges.specs.Range.{Coalesced};
ghost use Rattle.ranges.specs.Store.{counted};
ghost use Rattle.ranges.specs.Inner.Cut.{first, behind};

use lists::inner::pairs::counted;

// The place of the first range that ends above a, or their number.
pub fn first_past(list: &[u64], n: usize, a: u64) -> usize
    requires n_in_bounds { 2 * n ≤ length list.now }
    requires coalesced { Coalesced (counted list.now n) }
    ensures value { result ≡ first a (counted list.now n) }
    ensures upper_bound { result ≤ n }
{
    counted(list, n).partition_point(|&[_, end]| end <= a)
}

// The place, from i on, of the first range that starts above e, or their number.
pub fn first_above(list: &[u64], n: usize, i: usize, e: u64) -> usize
    requires i_le_n { (i ≤ n) × (2 * n ≤ length list.now) }
    requires coalesced { Coalesced (counted list.now n) }
    ensures value { result ≡ behind i (suc e) (counted list.now n) }
    ensures lower_bound { (i ≤ result) × (result ≤ n) }
{
    i + counted(list, n)[i..].partition_point(|&[start, _]| start <= e)
}
