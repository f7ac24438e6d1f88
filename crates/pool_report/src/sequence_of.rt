// The NAK sequence of a pool's transfer.
ghost use Rattle.std.specs.Prelude.{◌≡◌, length};
ghost use Rattle.sequence.specs.Sequence.{sequence_case};
ghost use Rattle.pool_report.specs.Report.{pool_sequence_outcome, pool_sequence_buffer};

use nak_sequence::write_nak_sequence;
use outcomes::Refusal;
use pooling::Pool;
use sequence::{Order, Sent};
use sharing::inner::own::own;

// Writes at most `budget` PDUs of at most `largest` octets for transfer i, from entry `cursor` on. The list is read once.
pub fn write_pool_sequence(
    pool: Pool,
    list: &[u64],
    i: usize,
    order: Order,
    buf: &mut [u8],
) -> Result<Sent, Refusal>
    ensures result_value { sequence_case result ≡ pool_sequence_outcome pool list.now i order (length buf.old) }
    ensures buf_after { buf.new ≡ pool_sequence_buffer pool list.now i order buf.old }
{
    let (rec, part) = own(pool, list, i)?;
    write_nak_sequence(rec, part, order, buf)
}
