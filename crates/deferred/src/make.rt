// make: a timer for countdowns of d ticks, and its limit.
ghost use Rattle.std.specs.Prelude.{◌≡◌};
ghost use Rattle.deferring.specs.Make.{is_outside, made};

use deferring::{Activity, Deferred};
use outcomes::Refusal;

// The most ticks of a countdown, and the largest limit.
const MOST_TICKS: u64 = 65535;

const MOST_ASKS: u64 = 255;

fn is_outside(most: u64, n: u64) -> bool
    ensures { result ≡ is_outside most n }
{
    n == 0 || most < n
}

pub fn make(d: u64, limit: u64) -> Result<Deferred, Refusal>
    ensures { result ≡ made d limit }
{
    if is_outside(MOST_TICKS, d) || is_outside(MOST_ASKS, limit) {
        return Err(Refusal::BadTimer);
    }
    Ok(Deferred {
        period: d,
        limit,
        activity: Activity::Idle,
        left: 0,
        counter: 0,
    })
}
