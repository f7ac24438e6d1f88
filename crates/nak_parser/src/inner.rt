// Inner: not part of the public interface. Some of these have a `requires`, which their callers show.
ghost use Rattle.std.specs.Prelude.{◌≡◌, [], ◌+◌, ◌*◌, ◌-◌, ◌≤◌, length, take, drop};
ghost use Rattle.outcomes.specs.Outcome.{accepted};
ghost use Rattle.outcomes.specs.Refusal.{refusing};
ghost use Rattle.outcomes.specs.Checks.{first_of, verdict_case};
ghost use Rattle.nak.specs.Request.{requests_checks};
ghost use Rattle.nak_parsing.specs.Parser.{requests_in, parsed_with, refused_parsed};

use nak::{Edition, Form, Identity};
use nak_checks::inner::requests::check_request;
use nak_parsing::{Parsed, Said};
use octets::LargeFileFlag;
use octets::inner::get;
use outcomes::{Refusal, Told};

// Each request of a packet in order: there are `count` from the place `from` on, their numbers of f octets.
pub fn check_packet(packet: &[u8], from: usize, f: usize, count: usize) -> Result<(), Refusal>
    requires { (f ≤ 8) × (from + 2 * f * count ≤ length packet.now) }
    ensures { verdict_case result ≡ first_of (requests_checks (requests_in f count (drop from packet.now))) (accepted []) }
{
    let mut none = true;
    // By index and not by `chunks_exact`: a chunk may not be empty, and f may be 0 here.
    for i in 0..count {
        let at = from + 2 * f * i;
        none = check_request(none, get(packet, at, f), get(packet, at + f, f))?;
    }
    Ok(())
}

// What is handed back of an accepted packet: the reader of its requests stands at the first.
pub fn accepted(said: Said) -> Parsed
    ensures { result ≡ parsed_with said }
{
    Parsed {
        refusal: 0,
        start: 0,
        end: 0,
        identity: said.identity,
        form: said.form,
        scope_start: said.scope_start,
        scope_end: said.scope_end,
        from: said.from,
        to: said.to,
        next: said.from,
    }
}

// What is handed back of a refused packet: the number, and the start and end that it carries.
pub fn refused(edition: Edition, r: Refusal, length: usize) -> Parsed
    ensures { result ≡ refused_parsed edition (refusing r) length }
{
    let n = Told::from(r);
    Parsed {
        refusal: n.number,
        start: n.first,
        end: n.second,
        identity: Identity {
            entity_length: 0,
            number_length: 0,
            source: 0,
            number: 0,
            destination: 0,
        },
        form: Form {
            edition,
            flag: LargeFileFlag::Normal,
            crc: false,
        },
        scope_start: 0,
        scope_end: 0,
        from: 0,
        to: 0,
        next: length,
    }
}

// A part of a packet, the caller's own octets.
pub fn part<'a>(packet: &'a [u8], from: usize, to: usize) -> &'a [u8]
    requires { (from ≤ to) × (to ≤ length packet.now) }
    ensures { (result.now ≡ take (to - from) (drop from packet.now)) × (result.ref_ptr ≡ (packet.entry.ref_ptr.0, from + packet.entry.ref_ptr.1)) }
{
    &packet[from..to]
}
