// Writing one PDU.
#![tactic(auto)]

ghost use Rattle.std.specs.Prelude.{◌≡◌, [], length};
ghost use Rattle.ranges.specs.Store.{pairs};
ghost use Rattle.outcomes.specs.Outcome.{accepted};
ghost use Rattle.outcomes.specs.Checks.{first_of, verdict_case};
ghost use Rattle.nak.specs.Pdu.{saying};
ghost use Rattle.nak.specs.Writer.{write_case, write_checks, write_outcome, written};

use crate::inner::write_at;
use nak::{Asked, Form, Identity, LARGEST_PDU};
use nak_checks::inner::bad_identity;
use nak_checks::inner::lengths::pdu_length;
use nak_checks::inner::requests::{any_number_above, bad_list, check_requests};
use outcomes::Refusal;

pub mod inner;

// The checks of writing into a buffer of `given` octets.
pub fn write_checks(
    identity: Identity,
    form: Form,
    start: u64,
    end: u64,
    requests: &[u64],
    given: usize,
) -> Result<(), Refusal>
    ensures { verdict_case result ≡ first_of (write_checks requests.now (saying form identity start end (pairs requests.now)) given) (accepted []) }
{
    if bad_list(requests) {
        return Err(Refusal::BadStore);
    }
    if bad_identity(identity) {
        return Err(Refusal::BadIdentity);
    }
    if form.reserved_set() {
        return Err(Refusal::BadHeader);
    }
    if end < start {
        return Err(Refusal::ScopeReversed);
    }
    check_requests(requests)?;
    if any_number_above(form.largest(), start, end, requests) {
        return Err(Refusal::LargeSegmentForNormalFileSize);
    }
    let total = pdu_length(identity, form, requests.len());
    if LARGEST_PDU < total {
        return Err(Refusal::PduSize);
    }
    if given != total {
        return Err(Refusal::BufferSizeMissmatch(total, given));
    }
    Ok(())
}

// Writes the NAK PDU of this identity, form, scope (start and end) and list of requests, a flat list of pairs read to its end.
pub fn write(
    identity: Identity,
    form: Form,
    start: u64,
    end: u64,
    requests: &[u64],
    buf: &mut [u8],
) -> Result<usize, Refusal>
    ensures result_value { write_case result ≡ write_outcome requests.now (saying form identity start end (pairs requests.now)) (length buf.old) }
    ensures buf_after { buf.new ≡ written requests.now (saying form identity start end (pairs requests.now)) buf.old }
{
    write_checks(identity, form, start, end, requests, buf.len())?;
    let asked = Asked {
        start,
        end,
        metadata: false,
        requests,
    };
    Ok(write_at(buf, 0, identity, form, asked))
}
