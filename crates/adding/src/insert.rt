// insert: a range put into a coalesced list, where it joins the ranges that it overlaps or touches.
ghost use Rattle.std.specs.Prelude.{◌≡◌, []};
ghost use Rattle.outcomes.specs.Outcome.{accepted};
ghost use Rattle.outcomes.specs.Checks.{first_of, verdict_case};
ghost use Rattle.segment_store.specs.Insert.{insert_case, insert_checks, insert_outcome, insert_list};

use outcomes::Refusal;
use searches::inner::checks::check;
use segment_store::Store;

// The checks of insert, in order, before that of the room.
fn insert_checks(st: Store, list: &[u64], start: u64, end: u64) -> Result<(), Refusal>
    ensures { verdict_case result ≡ first_of (insert_checks list.now st start end) (accepted []) }
{
    let top = st.width.limit();
    let found = check(list, st.count, top);
    if found.bad {
        return Err(Refusal::BadStore);
    }
    if start == end {
        return Err(Refusal::EmptySegment);
    }
    if end < start {
        return Err(Refusal::StartLargerThanEnd(start, end));
    }
    if top < start || top < end {
        return Err(Refusal::LargeFileSegmentNotSupported);
    }
    if !found.coalesced {
        return Err(Refusal::NotCoalesced);
    }
    Ok(())
}

pub fn insert(st: Store, list: &mut [u64], start: u64, end: u64) -> Result<usize, Refusal>
    ensures result_value { insert_case result ≡ insert_outcome list.old st start end }
    ensures list_after { list.new ≡ insert_list list.old st start end }
{
    insert_checks(st, list, start, end)?;
    let room = list.len() / 2;
    inserting::inner::insert(list, st.count, start, end, room).ok_or(Refusal::StoreFull)
}
