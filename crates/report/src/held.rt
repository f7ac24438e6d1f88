// held: whether every octet of a range was kept.
ghost use Rattle.std.specs.Prelude.{◌≡◌, []};
ghost use Rattle.outcomes.specs.Outcome.{accepted};
ghost use Rattle.outcomes.specs.Checks.{verdict_case, first_of};
ghost use Rattle.holding.specs.Held.{held_checks, held_case, held_outcome};

use crate::inner::is_held;
use outcomes::Refusal;
use reception::Reception;
use record_checks::inner::record_checks;

pub fn held_checks(rec: Reception, list: &[u64], a: u64, b: u64) -> Result<(), Refusal>
    ensures { verdict_case result ≡ first_of (held_checks rec list.now a b) (accepted []) }
{
    record_checks(rec, list)?;
    if a == b {
        return Err(Refusal::EmptySegment);
    }
    if b < a {
        return Err(Refusal::StartLargerThanEnd(a, b));
    }
    Ok(())
}

pub fn held(rec: Reception, list: &[u64], a: u64, b: u64) -> Result<bool, Refusal>
    ensures { held_case result ≡ held_outcome rec list.now a b }
{
    held_checks(rec, list, a, b)?;
    Ok(is_held(rec, list, a, b))
}
