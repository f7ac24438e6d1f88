// Inner: the pass that coalesces, and the sort before it. Each asks for what its caller has checked.
ghost use Rattle.std.specs.Prelude.{◌≡◌, ◌+◌, ◌*◌, ◌≤◌, length};
ghost use Rattle.ranges.specs.Range.{range, Coalesced};
ghost use Rattle.ranges.specs.Insert.{join};
ghost use Rattle.ranges.specs.Store.{counted, stored};
ghost use Rattle.pair_sort.specs.Sorted.{Ascending};
ghost use Rattle.segment_store.specs.Coalesce.{maximal_runs};
ghost use Rattle.coalescing.specs.Inner.{Low};

use lists::inner::moves::tidy;
use lists::inner::pairs::{end_at, put_end, put_pair, start_at};
use pair_sort::inner::sort_pairs;

// (s, e) joins the last of the first m ranges, or goes behind it.
fn put_last(list: &mut [u64], m: usize, s: u64, e: u64) -> usize
    requires m_in_bounds { 2 * m + 2 ≤ length list.old }
    requires coalesced { Coalesced (counted list.old m) }
    requires low { Low s (counted list.old m) }
    ensures value { result ≡ length (join (range s e) (counted list.old m)) }
    ensures list_after { list.new ≡ stored (join (range s e) (counted list.old m)) m list.old }
{
    if e <= s {
        return m;
    }
    if 0 < m {
        let last = m - 1;
        let h = end_at(list, last);
        if s <= h {
            put_end(list, last, h.max(e));
            return m;
        }
    }
    put_pair(list, m, s, e);
    m + 1
}

// The pass over n pairs whose starts ascend.
fn merge_ascending(list: &mut [u64], n: usize) -> usize
    requires n_in_bounds { 2 * n ≤ length list.old }
    requires ascending { Ascending list.old n }
    ensures value { result ≡ length (maximal_runs (counted list.old n)) }
    ensures list_after { list.new ≡ stored (maximal_runs (counted list.old n)) n list.old }
{
    let mut m = 0;
    for k in 0..n {
        let s = start_at(list, k);
        let e = end_at(list, k);
        m = put_last(list, m, s, e);
    }
    tidy(list, m, n);
    m
}

// The maximal runs of the first n pairs, where they lie; answers how many.
pub fn coalesce_counted(list: &mut [u64], n: usize) -> usize
    requires { 2 * n ≤ length list.old }
    ensures value { result ≡ length (maximal_runs (counted list.old n)) }
    ensures list_after { list.new ≡ stored (maximal_runs (counted list.old n)) n list.old }
{
    sort_pairs(list, n);
    merge_ascending(list, n)
}
