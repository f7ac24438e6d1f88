// What a report asks: whether octets were kept, and how many are missing. Record and list are only read.
ghost use Rattle.std.specs.Prelude.{◌≡◌};
ghost use Rattle.holding.specs.Held.{held_outcome};
ghost use Rattle.holding.specs.MissingOctets.{missing_octets_outcome};
ghost use Rattle.c_values.specs.Input.{record_in};
ghost use Rattle.answers.specs.Answer.{answer_of};

use answers::PusmarkeAnswer;
use c_values::PusmarkeReception;
use reception::Reception;
use report::held::held;
use report::missing_octets::missing_octets;

#[unsafe(no_mangle)]
pub extern "C" fn pusmarke_held(
    rec: PusmarkeReception,
    list: &[u64],
    start: u64,
    end: u64,
) -> PusmarkeAnswer
    ensures { result ≡ answer_of (held_outcome (record_in rec) list.now start end) }
{
    PusmarkeAnswer::from(held(Reception::from(rec), list, start, end))
}

#[unsafe(no_mangle)]
pub extern "C" fn pusmarke_missing_octets(rec: PusmarkeReception, list: &[u64]) -> PusmarkeAnswer
    ensures { result ≡ answer_of (missing_octets_outcome (record_in rec) list.now) }
{
    let whole = Reception::from(rec);
    PusmarkeAnswer::from(missing_octets(whole, list))
}
