// add: a range behind the counted ones.
ghost use Rattle.std.specs.Prelude.{◌≡◌, []};
ghost use Rattle.outcomes.specs.Outcome.{accepted};
ghost use Rattle.outcomes.specs.Checks.{first_of, verdict_case};
ghost use Rattle.segment_store.specs.Add.{add_case, add_checks, add_outcome, add_list};

use lists::inner::pairs::put_pair;
use outcomes::Refusal;
use segment_store::Store;

// The checks of add, in order.
fn add_checks(st: Store, list: &[u64], start: u64, end: u64) -> Result<(), Refusal>
    ensures { verdict_case result ≡ first_of (add_checks list.now st start end) (accepted []) }
{
    let top = st.width.limit();
    if searches::bad_store(list, st.count, top) {
        return Err(Refusal::BadStore);
    }
    if start == end {
        return Err(Refusal::EmptySegment);
    }
    if end < start {
        return Err(Refusal::StartLargerThanEnd(start, end));
    }
    if top < start || top < end {
        return Err(Refusal::LargeFileSegmentNotSupported);
    }
    if st.count == list.len() / 2 {
        return Err(Refusal::StoreFull);
    }
    Ok(())
}

pub fn add(st: Store, list: &mut [u64], start: u64, end: u64) -> Result<usize, Refusal>
    ensures result_value { add_case result ≡ add_outcome list.old st start end }
    ensures list_after { list.new ≡ add_list list.old st start end }
{
    add_checks(st, list, start, end)?;
    put_pair(list, st.count, start, end);
    Ok(st.count + 1)
}
