// Inner: not part of the public interface. It has a `requires`, which its callers show.
ghost use Rattle.std.specs.Prelude.{◌≡◌, ◌+◌, ◌-◌, ◌≤◌, length, take, drop};
ghost use Rattle.octets.specs.Octets.{with_octets};
ghost use Rattle.crc.specs.Crc.{crc_of, trailer};

use crate::crc_of;
use octets::inner::put;

// The trailer of the octets in the places `from` up to `to` goes into the two places behind them.
pub fn put_trailer(buf: &mut [u8], from: usize, to: usize)
    requires { to + 2 ≤ length buf.old }
    ensures { buf.new ≡ with_octets buf.old to (trailer (crc_of (take (to - from) (drop from buf.old)))) }
{
    let crc = crc_of(buf, from, to);
    put(buf, to, 2, u64::from(crc));
}
