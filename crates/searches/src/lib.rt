// A lent flat list searched: the checks 10 and 8, and the places where a change begins and ends.
#![tactic(auto)]

ghost use Rattle.std.specs.Prelude.{◌≡◌};
ghost use Rattle.ranges.specs.Store.{is_bad_store};

pub mod inner;

// Check 10: whether a lent list with this count is no store with this limit.
pub fn bad_store(list: &[u64], count: usize, top: u64) -> bool
    ensures { result ≡ is_bad_store list.now count top }
{
    inner::checks::bad_shape(list, count) || inner::checks::any_above(list, 2 * count, top)
}
