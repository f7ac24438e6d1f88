// Inner: the checks that calls share.
ghost use Rattle.std.specs.Prelude.{◌≡◌, []};
ghost use Rattle.outcomes.specs.Outcome.{accepted};
ghost use Rattle.outcomes.specs.Checks.{first_of, verdict_case};
ghost use Rattle.segment_store.specs.Checks.{store_checks};

use outcomes::Refusal;
use segment_store::Store;

// Check 10.
pub fn store_checks(st: Store, list: &[u64]) -> Result<(), Refusal>
    ensures { verdict_case result ≡ first_of (store_checks list.now st) (accepted []) }
{
    if searches::bad_store(list, st.count, st.width.limit()) {
        return Err(Refusal::BadStore);
    }
    Ok(())
}
