// coalesce: the maximal runs of the counted pairs.
ghost use Rattle.std.specs.Prelude.{◌≡◌};
ghost use Rattle.segment_store.specs.Coalesce.{coalesce_case, coalesce_outcome, coalesce_list};

use crate::inner::store_checks;
use coalescing::inner::coalesce_counted;
use outcomes::Refusal;
use segment_store::Store;

pub fn coalesce(st: Store, list: &mut [u64]) -> Result<usize, Refusal>
    ensures result_value { coalesce_case result ≡ coalesce_outcome list.old st }
    ensures list_after { list.new ≡ coalesce_list list.old st }
{
    store_checks(st, list)?;
    Ok(coalesce_counted(list, st.count))
}
