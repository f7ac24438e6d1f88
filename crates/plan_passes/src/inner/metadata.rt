// How often the metadata is asked for: test 6.
ghost use Rattle.std.specs.Prelude.{◌≡◌, ◌<◌, length, MatchResult};
ghost use Rattle.nak.specs.Request.{metadata_asked};
ghost use Rattle.planning.specs.Plan.{asked};
ghost use Rattle.planning.specs.Tests.{first_below, is_too_often, wanted};
ghost use Rattle.plan_passes.specs.Pdus.{plan_of};

use crate::inner::pdus::Pdus;
use plan_packets::inner::packets::metadata_in;
use reception::Reception;

// How often the metadata is to be asked for.
pub fn times_wanted(rec: Reception) -> usize
    ensures { result ≡ wanted rec }
{
    usize::from(rec.missing)
}

// Test 6: how often all PDUs ask for it, or the first with which they ask more often than w times.
pub fn first_too_often(pdus: &Pdus<'_>, w: usize) -> Result<usize, usize>
    ensures { MatchResult result
        (λ times. (first_below (is_too_often (plan_of pdus.now) w) (length pdus.now.lengths.now) ≡ length pdus.now.lengths.now)
        × (times ≡ metadata_asked (asked (plan_of pdus.now))))
        (λ k. (k ≡ first_below (is_too_often (plan_of pdus.now) w) (length pdus.now.lengths.now)) × (k < length pdus.now.lengths.now)) }
{
    let mut times = 0;
    for (k, packet) in pdus.packets().enumerate() {
        times += metadata_in(packet, pdus.edition);
        if w < times {
            return Err(k);
        }
    }
    Ok(times)
}
