// write_segments_to_bytes: the counted pairs as the segment requests of a NAK PDU.
ghost use Rattle.std.specs.Prelude.{◌≡◌, false, [], ◌≤◌, length, take};
ghost use Rattle.ranges.specs.Store.{any_above};
ghost use Rattle.outcomes.specs.Outcome.{accepted};
ghost use Rattle.outcomes.specs.Checks.{first_of, verdict_case};
ghost use Rattle.segment_store.specs.WriteSegmentsToBytes.{to_bytes_case, to_bytes_checks, to_bytes_outcome, to_bytes_buffer};

use octets::LargeFileFlag;
use octets::inner::put_all;
use outcomes::Refusal;
use searches::inner::checks::any_above;
use segment_store::Store;

// 7: whether one of the first `end` numbers, none of them above top, is above the flag's largest.
fn any_too_large(list: &[u64], end: usize, top: u64, largest: u64) -> bool
    requires { (end ≤ length list.now) × (any_above top (take end list.now) ≡ false) }
    ensures { result ≡ any_above largest (take end list.now) }
{
    largest < top && any_above(list, end, largest)
}

// The checks of write_segments_to_bytes, in order, for a buffer of `given` octets.
fn write_checks(st: Store, list: &[u64], flag: LargeFileFlag, given: usize) -> Result<(), Refusal>
    ensures { verdict_case result ≡ first_of (to_bytes_checks list.now st flag given) (accepted []) }
{
    let top = st.width.limit();
    if searches::bad_store(list, st.count, top) {
        return Err(Refusal::BadStore);
    }
    let needed = st.count * (2 * flag.field_length());
    if given != needed {
        return Err(Refusal::BufferSizeMissmatch(needed, given));
    }
    if any_too_large(list, 2 * st.count, top, flag.largest()) {
        return Err(Refusal::LargeSegmentForNormalFileSize);
    }
    Ok(())
}

pub fn write_segments_to_bytes(
    st: Store,
    list: &[u64],
    buf: &mut [u8],
    flag: LargeFileFlag,
) -> Result<usize, Refusal>
    ensures result_value { to_bytes_case result ≡ to_bytes_outcome list.now st flag buf.old }
    ensures buf_after { buf.new ≡ to_bytes_buffer list.now st flag buf.old }
{
    let given = buf.len();
    write_checks(st, list, flag, given)?;
    put_all(buf, 0, flag.field_length(), list, 0, 2 * st.count);
    Ok(given)
}
