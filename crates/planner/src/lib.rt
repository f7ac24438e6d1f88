// Mission planning's PDUs, back to back with a list of their lengths, checked against the record (document 02, C-23).
#![tactic(auto)]

ghost use Rattle.std.specs.Prelude.{◌≡◌, [], length, drop, ◌≤◌, ◌*◌};
ghost use Rattle.outcomes.specs.Outcome.{accepted};
ghost use Rattle.outcomes.specs.Checks.{verdict_case, first_of};
ghost use Rattle.planning.specs.Plan.{plan};
ghost use Rattle.planning.specs.Tests.{plan_tests};
ghost use Rattle.planning.specs.Check.{plan_case, plan_checks, plan_outcome, plan_scratch};
ghost use Rattle.ranges.specs.Range.{Coalesced};
ghost use Rattle.ranges.specs.Store.{counted};
ghost use Rattle.planning.specs.Check.{room_for};
ghost use Rattle.plan_passes.specs.Pdus.{plan_of};

use lists::inner::moves::tidy;
use nak::{Edition, Identity};
use nak_checks::inner::bad_identity;
use outcomes::Refusal;
use plan_passes::inner::pdus::{Pdus, sum_of};
use plan_passes::inner::{firsts, metadata, union};
use reception::Reception;
use record_checks::inner::record_checks;

// The most PDUs of a plan.
const MOST_PDUS: usize = 16;

// The checks of a call, `given` the length of the list lent to sort in.
pub fn plan_checks(
    rec: Reception,
    list: &[u64],
    identity: Identity,
    edition: Edition,
    lengths: &[u16],
    buf: &[u8],
    given: usize,
) -> Result<(), Refusal>
    ensures { verdict_case result ≡ first_of (plan_checks rec list.now identity (plan edition lengths.now buf.now) given) (accepted []) }
{
    record_checks(rec, list)?;
    if bad_identity(identity) {
        return Err(Refusal::BadIdentity);
    }
    if MOST_PDUS < lengths.len() {
        return Err(Refusal::BudgetTooLarge);
    }
    let sum = sum_of(lengths);
    if sum != buf.len() {
        return Err(Refusal::BufferSizeMissmatch(sum, buf.len()));
    }
    let needed = 2 * (buf.len() / 8);
    if given < needed {
        return Err(Refusal::BufferSizeMissmatch(needed, given));
    }
    Ok(())
}

// The tests in order, each over all PDUs.
fn plan_tests(
    rec: Reception,
    list: &[u64],
    identity: Identity,
    pdus: &Pdus<'_>,
    scratch: &mut [u64],
) -> Result<(), Refusal>
    requires count_in_bounds { (2 * rec.count ≤ length list.now) × Coalesced (counted list.now rec.count) }
    requires buf_in_bounds { 2 * room_for pdus.now.buf.now ≤ length scratch.old }
    ensures result_value { verdict_case result ≡ first_of (plan_tests rec list.now identity (plan_of pdus.now)) (accepted []) }
    ensures scratch_unchanged { drop (2 * room_for pdus.now.buf.now) scratch.new ≡ drop (2 * room_for pdus.now.buf.now) scratch.old }
{
    let n = pdus.lengths.len();
    if let Some(unread) = firsts::first_unread(pdus) {
        return Err(Refusal::BadPlan(1, unread));
    }
    if let Some(other) = firsts::first_other(pdus, identity) {
        return Err(Refusal::BadPlan(2, other));
    }
    if let Some(beyond) = firsts::first_beyond(pdus) {
        return Err(Refusal::BadPlan(3, beyond));
    }
    let count = match union::first_repeat(pdus, scratch) {
        Ok(count) => count,
        Err(again) => return Err(Refusal::BadPlan(4, again)),
    };
    if !union::same_pairs(scratch, count, list, rec.count) {
        let unwanted = firsts::first_unwanted(pdus, list, rec.count).unwrap_or(n);
        return Err(Refusal::BadPlan(5, unwanted));
    }
    let wanted = metadata::times_wanted(rec);
    let times = match metadata::first_too_often(pdus, wanted) {
        Ok(times) => times,
        Err(often) => return Err(Refusal::BadPlan(6, often)),
    };
    if times < wanted {
        return Err(Refusal::BadPlan(6, n));
    }
    Ok(())
}

// The call. `scratch` is lent to sort the requests in: a pair for each eight octets of the buffer.
pub fn check_plan(
    rec: Reception,
    list: &[u64],
    identity: Identity,
    edition: Edition,
    lengths: &[u16],
    buf: &[u8],
    scratch: &mut [u64],
) -> Result<(), Refusal>
    ensures result_value { plan_case result ≡ plan_outcome rec list.now identity (plan edition lengths.now buf.now) (length scratch.old) }
    ensures scratch_after { scratch.new ≡ plan_scratch rec list.now identity (plan edition lengths.now buf.now) scratch.old }
{
    plan_checks(rec, list, identity, edition, lengths, buf, scratch.len())?;
    let pdus = Pdus {
        edition,
        lengths,
        buf,
    };
    let tested = plan_tests(rec, list, identity, &pdus, scratch);
    tidy(scratch, 0, buf.len() / 8);
    tested
}
