// segment_in_store: whether a range lies inside a counted pair.
ghost use Rattle.std.specs.Prelude.{◌≡◌};
ghost use Rattle.segment_store.specs.SegmentInStore.{in_store_case, in_store_outcome};

use crate::inner::store_checks;
use outcomes::Refusal;
use searches::inner::checks::any_holds;
use segment_store::Store;

pub fn segment_in_store(st: Store, list: &[u64], a: u64, b: u64) -> Result<bool, Refusal>
    ensures { in_store_case result ≡ in_store_outcome list.now st a b }
{
    store_checks(st, list)?;
    Ok(any_holds(list, st.count, a, b))
}
