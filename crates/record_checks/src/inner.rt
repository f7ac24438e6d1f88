// Inner: the checks of a record, some of which ask for what their callers have checked. None is a public call.
ghost use Rattle.std.specs.Prelude.{◌≡◌, ◌||◌, [], ◌*◌, ◌≤◌, length};
ghost use Rattle.ranges.specs.Store.{counted};
ghost use Rattle.outcomes.specs.Outcome.{accepted};
ghost use Rattle.outcomes.specs.Checks.{verdict_case, first_of};
ghost use Rattle.reception.specs.Record.{is_waiting, is_wrong_wait, is_wrong_size, record_checks};

use outcomes::Refusal;
use reception::Reception;
use searches::inner::checks::{check, last_end};

// Whether the counted pairs are the list of a waiting record.
fn is_waiting(rec: Reception, list: &[u64]) -> bool
    requires { 2 * rec.count ≤ length list.now }
    ensures { result ≡ is_waiting rec.progress (counted list.now rec.count) }
{
    match rec.count {
        0 => rec.progress == 0,
        1 => 0 < rec.progress && list[0] == 0 && list[1] == rec.progress,
        _ => false,
    }
}

// What is left of 10 where the store is good and progress within the width: whether metadata is missing and the list is not the one
// stated for that, or the size is known and progress is another number.
pub fn wrong_rest(rec: Reception, list: &[u64]) -> bool
    requires { 2 * rec.count ≤ length list.now }
    ensures { result ≡ (is_wrong_wait list.now rec || is_wrong_size rec) }
{
    (rec.missing && !is_waiting(rec, list)) || (rec.sized && rec.progress != rec.size)
}

// The checks that every event begins with: 10, 8, 12.
pub fn record_checks(rec: Reception, list: &[u64]) -> Result<(), Refusal>
    ensures { verdict_case result ≡ first_of (record_checks rec list.now) (accepted []) }
{
    let top = rec.width.limit();
    let found = check(list, rec.count, top);
    if found.bad || top < rec.progress || wrong_rest(rec, list) {
        return Err(Refusal::BadStore);
    }
    if !found.coalesced {
        return Err(Refusal::NotCoalesced);
    }
    if rec.progress < last_end(list, rec.count) {
        return Err(Refusal::ScopeBelowList);
    }
    Ok(())
}
