// The NAK sequence: PDUs that ask for everything that is missing, a few at a time from a cursor on.
#![tactic(auto)]

ghost use Rattle.std.specs.Prelude.{◌≡◌, [], length};
ghost use Rattle.outcomes.specs.Outcome.{accepted};
ghost use Rattle.outcomes.specs.Checks.{verdict_case, first_of};
ghost use Rattle.reception.specs.Record.{Passed};
ghost use Rattle.sequence.specs.Sequence.{order_checks, sequence_checks, sequence_case, sequence_outcome, sequence_buffer};

use nak_checks::inner::bad_identity;
use nak_checks::inner::lengths::per_pdu;
use outcomes::Refusal;
use reception::Reception;
use record_checks::inner::record_checks;
use sequence::{Order, Sent};

pub mod inner;

// The most PDUs that a call writes.
const LARGEST_BUDGET: usize = 16;

// The checks of the order itself, for a record that has passed its own; `given` is the length of the buffer.
fn order_checks(rec: Reception, list: &[u64], order: Order, given: usize) -> Result<(), Refusal>
    requires { Passed list.now rec }
    ensures { verdict_case result ≡ first_of (order_checks rec list.now order given) (accepted []) }
{
    if bad_identity(order.identity) {
        return Err(Refusal::BadIdentity);
    }
    if order.form.reserved_set() {
        return Err(Refusal::BadHeader);
    }
    if inner::bad_size(order) {
        return Err(Refusal::PduSize);
    }
    // No number of a sound record's list is above progress.
    if order.form.largest() < rec.progress {
        return Err(Refusal::LargeSegmentForNormalFileSize);
    }
    if inner::entry_count(rec) < order.cursor {
        return Err(Refusal::BadCursor);
    }
    if LARGEST_BUDGET < order.budget {
        return Err(Refusal::BudgetTooLarge);
    }
    let needed = order.budget * order.largest;
    if given < needed {
        return Err(Refusal::BufferSizeMissmatch(needed, given));
    }
    Ok(())
}

// The checks of a call.
pub fn sequence_checks(
    rec: Reception,
    list: &[u64],
    order: Order,
    given: usize,
) -> Result<(), Refusal>
    ensures { verdict_case result ≡ first_of (sequence_checks rec list.now order given) (accepted []) }
{
    record_checks(rec, list)?;
    order_checks(rec, list, order, given)
}

// Writes at most `budget` PDUs of at most `largest` octets back to back, from entry `cursor` on.
pub fn write_nak_sequence(
    rec: Reception,
    list: &[u64],
    order: Order,
    buf: &mut [u8],
) -> Result<Sent, Refusal>
    ensures result_value { sequence_case result ≡ sequence_outcome rec list.now order (length buf.old) }
    ensures buf_after { buf.new ≡ sequence_buffer rec list.now order buf.old }
{
    sequence_checks(rec, list, order, buf.len())?;
    let k = per_pdu(order.identity, order.form, order.largest);
    let e = inner::entry_count(rec);
    let pdus = order.budget.min((e - order.cursor + (k - 1)) / k);
    let octets = inner::write_pdus(buf, rec, list, order, k, pdus);
    Ok(Sent {
        pdus,
        octets,
        cursor: e.min(order.cursor + order.budget * k),
    })
}
