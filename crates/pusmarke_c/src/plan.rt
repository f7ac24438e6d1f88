// The check of PDUs that mission planning proposes.
ghost use Rattle.std.specs.Prelude.{◌≡◌, length};
ghost use Rattle.planning.specs.Plan.{plan};
ghost use Rattle.planning.specs.Check.{plan_outcome, plan_scratch};
ghost use Rattle.c_values.specs.Input.{record_in, identity_in, edition_in};
ghost use Rattle.answers.specs.Answer.{answer_of};

use answers::PusmarkeAnswer;
use c_values::inner::edition_in;
use c_values::{PusmarkeIdentity, PusmarkeReception};
use nak::Identity;
use reception::Reception;

#[unsafe(no_mangle)]
pub extern "C" fn pusmarke_check_plan(
    rec: PusmarkeReception,
    list: &[u64],
    identity: PusmarkeIdentity,
    older: u64,
    lengths: &[u16],
    buf: &[u8],
    scratch: &mut [u64],
) -> PusmarkeAnswer
    ensures value { result ≡ answer_of (plan_outcome (record_in rec) list.now (identity_in identity)
        (plan (edition_in older) lengths.now buf.now) (length scratch.old)) }
    ensures scratch_after { scratch.new ≡ plan_scratch (record_in rec) list.now (identity_in identity)
        (plan (edition_in older) lengths.now buf.now) scratch.old }
{
    let edition = edition_in(older);
    let own = Reception::from(rec);
    let asking = Identity::from(identity);
    PusmarkeAnswer::from(planner::check_plan(own, list, asking, edition, lengths, buf, scratch))
}
