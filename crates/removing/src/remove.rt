// remove: the offsets of a range leave a coalesced list.
ghost use Rattle.std.specs.Prelude.{◌≡◌, [], ◌∷◌, ◌*◌, ◌<◌, ◌≤◌, length};
ghost use Rattle.ranges.specs.Range.{Coalesced};
ghost use Rattle.ranges.specs.Without.{without};
ghost use Rattle.ranges.specs.Store.{counted, capacity, stored, most_numbers};
ghost use Rattle.outcomes.specs.Outcome.{accepted, lent};
ghost use Rattle.outcomes.specs.Checks.{first_of, verdict_case};
ghost use Rattle.removing.specs.Inner.{part_number};
ghost use Rattle.segment_store.specs.Remove.{remove_case, removed_values, remove_checks, remove_from, remove_outcome, remove_list};

use cutting::inner::cut;
use lists::inner::pairs::{end_at, start_at};
use outcomes::Refusal;
use ranges::inner::cut::Part;
use searches::inner::checks::check;
use searches::inner::halving::first_past;
use segment_store::Store;
use segment_store::remove::Removed;

// The checks of remove, in order.
fn remove_checks(st: Store, list: &[u64], a: u64, b: u64) -> Result<(), Refusal>
    ensures { verdict_case result ≡ first_of (remove_checks list.now st a b) (accepted []) }
{
    let top = st.width.limit();
    let found = check(list, st.count, top);
    if found.bad {
        return Err(Refusal::BadStore);
    }
    if top < a || top < b {
        return Err(Refusal::LargeFileSegmentNotSupported);
    }
    if a == b {
        return Err(Refusal::EmptySegment);
    }
    if b < a {
        return Err(Refusal::StartLargerThanEnd(a, b));
    }
    if !found.coalesced {
        return Err(Refusal::NotCoalesced);
    }
    Ok(())
}

// What is taken out where a part of the range at place i left, with m ranges afterwards.
fn removed(part: Part, i: usize, m: usize) -> Removed
    ensures { removed_values result ≡ part_number part ∷ i ∷ m ∷ [] }
{
    match part {
        Part::Whole => Removed::Whole(i, m),
        Part::Left => Removed::Left(i, m),
        Part::Right => Removed::Right(i, m),
        Part::Split => Removed::Split(i, m),
    }
}

// On a coalesced list: the first range that ends above a is the only one that (a, b) can lie inside.
fn remove_coalesced(list: &mut [u64], count: usize, a: u64, b: u64) -> Result<Removed, Refusal>
    requires count_in_bounds { (2 * count ≤ length list.old) × ((length list.old ≤ most_numbers) × (a < b)) }
    requires coalesced { Coalesced (counted list.old count) }
    ensures result_value { remove_case result ≡ remove_from (capacity list.old) (counted list.old count) a b }
    ensures list_after { list.new ≡ lent (remove_case result) (stored (without a b (counted list.old count)) count list.old) list.old }
{
    let i = first_past(list, count, a);
    if i == count {
        return Ok(Removed::NotStored(count));
    }
    let s = start_at(list, i);
    let e = end_at(list, i);
    if b <= s {
        return Ok(Removed::NotStored(count));
    }
    if a < s || e < b {
        return Err(Refusal::InvalidSegmentBoundary(a, b));
    }
    let room = list.len() / 2;
    let done = cut(list, count, i, i + 1, a, b, room);
    let left = done.remains.ok_or(Refusal::StoreFull)?;
    Ok(removed(done.part, i, left))
}

pub fn remove(st: Store, list: &mut [u64], a: u64, b: u64) -> Result<Removed, Refusal>
    ensures result_value { remove_case result ≡ remove_outcome list.old st a b }
    ensures list_after { list.new ≡ remove_list list.old st a b }
{
    remove_checks(st, list, a, b)?;
    remove_coalesced(list, st.count, a, b)
}
