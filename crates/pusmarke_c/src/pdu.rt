// One NAK PDU: written, read, and its requests one by one.
ghost use Rattle.std.specs.Prelude.{◌≡◌, length};
ghost use Rattle.ranges.specs.Store.{pairs};
ghost use Rattle.nak.specs.Pdu.{saying};
ghost use Rattle.nak.specs.Writer.{write_outcome, written};
ghost use Rattle.nak_parsing.specs.Parser.{parsed_of};
ghost use Rattle.nak_parsing.specs.Step.{step_outcome, place_after};
ghost use Rattle.answers.specs.Answer.{answer_of};
ghost use Rattle.c_values.specs.Input.{identity_in, form_in, edition_in};
ghost use Rattle.c_values.specs.Output.{nak_out, step_out};

use answers::PusmarkeAnswer;
use c_values::inner::{edition_in, mark_of};
use c_values::pdu::{flag_out, step_out};
use c_values::{PusmarkeForm, PusmarkeIdentity, PusmarkeNak, PusmarkeStep};
use nak::{Form, Identity};

#[unsafe(no_mangle)]
pub extern "C" fn pusmarke_write(
    identity: PusmarkeIdentity,
    form: PusmarkeForm,
    scope_start: u64,
    scope_end: u64,
    requests: &[u64],
    buf: &mut [u8],
) -> PusmarkeAnswer
    ensures value { result ≡ answer_of (write_outcome requests.now (saying (form_in form) (identity_in identity) scope_start scope_end (pairs requests.now))
        (length buf.old)) }
    ensures buf_after { buf.new ≡ written requests.now (saying (form_in form) (identity_in identity) scope_start scope_end (pairs requests.now)) buf.old }
{
    let own = Identity::from(identity);
    let shape = Form::from(form);
    PusmarkeAnswer::from(nak_writer::write(own, shape, scope_start, scope_end, requests, buf))
}

#[unsafe(no_mangle)]
pub extern "C" fn pusmarke_read(packet: &[u8], older: u64) -> PusmarkeNak
    ensures { result ≡ nak_out (parsed_of (edition_in older) packet.now) }
{
    let edition = edition_in(older);
    let p = nak_parser::parse(packet, edition);
    PusmarkeNak {
        refusal: p.refusal,
        start: p.start,
        end: p.end,
        identity: PusmarkeIdentity::from(p.identity),
        large: flag_out(p.form.flag),
        crc: mark_of(p.form.crc),
        scope_start: p.scope_start,
        scope_end: p.scope_end,
        from: p.from,
        to: p.to,
        next: p.next,
    }
}

#[unsafe(no_mangle)]
pub extern "C" fn pusmarke_next(packet: &[u8], at: usize) -> PusmarkeStep
    ensures { result ≡ step_out (step_outcome packet.now at) (place_after packet.now at) }
{
    let found = nak_parser::next_at(packet, at);
    step_out(found.step, found.at)
}
