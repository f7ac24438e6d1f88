// The NAK sequence.
ghost use Rattle.std.specs.Prelude.{◌≡◌, length};
ghost use Rattle.sequence.specs.Sequence.{sequence_outcome, sequence_buffer, order};
ghost use Rattle.c_values.specs.Input.{record_in, identity_in, form_in};
ghost use Rattle.answers.specs.Answer.{answer_of};

use answers::PusmarkeAnswer;
use c_values::{PusmarkeForm, PusmarkeIdentity, PusmarkeReception};
use nak::{Form, Identity};
use nak_sequence::write_nak_sequence;
use reception::Reception;
use sequence::Order;

#[unsafe(no_mangle)]
pub extern "C" fn pusmarke_nak_sequence(
    rec: PusmarkeReception,
    list: &[u64],
    identity: PusmarkeIdentity,
    form: PusmarkeForm,
    largest: usize,
    cursor: usize,
    budget: usize,
    buf: &mut [u8],
) -> PusmarkeAnswer
    ensures value { result ≡ answer_of (sequence_outcome (record_in rec) list.now (order (identity_in identity) (form_in form) largest cursor budget) (length buf.old)) }
    ensures buf_after { buf.new ≡ sequence_buffer (record_in rec) list.now (order (identity_in identity) (form_in form) largest cursor budget) buf.old }
{
    let order = Order {
        identity: Identity::from(identity),
        form: Form::from(form),
        largest,
        cursor,
        budget,
    };
    PusmarkeAnswer::from(write_nak_sequence(Reception::from(rec), list, order, buf))
}
