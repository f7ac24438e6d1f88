// Inner: offsets leave a coalesced list. The function asks for what its callers have checked.
ghost use Rattle.std.specs.Prelude.{◌≡◌, ◌*◌, ◌-◌, ◌<◌, ◌≤◌, length};
ghost use Rattle.ranges.specs.Range.{Coalesced};
ghost use Rattle.ranges.specs.Store.{counted, start_at, end_at, most_numbers};
ghost use Rattle.ranges.specs.Without.{without};
ghost use Rattle.ranges.specs.Inner.Cut.{first, behind, gone_of, cut_answer, cut_list};

use lists::inner::moves::replace;
use lists::inner::pairs::{end_at, start_at};
use ranges::inner::cut::Part;

// What a cut answers: what is left, and the part that has left, or would have where there is no room.
#[derive(Clone, Copy)]
pub struct CutDone {
    pub remains: Option<usize>,
    pub part: Part,
}

// The offsets from a up to but not including b leave the n ranges: of those from place i up to place j, which are the ones that
// share an offset with (a, b), the part before a and the part from b on are left. There is room for so many ranges.
pub fn cut(list: &mut [u64], n: usize, i: usize, j: usize, a: u64, b: u64, room: usize) -> CutDone
    requires i_lt_j { (i < j) × ((j ≤ n) × ((n ≤ room) × ((2 * room ≤ length list.old) × ((length list.old ≤ most_numbers) × (a < b))))) }
    requires coalesced { Coalesced (counted list.old n) }
    requires i_value { (i ≡ first a (counted list.old n)) × (j ≡ behind i b (counted list.old n)) }
    ensures remains_value { result.remains ≡ cut_answer room (without a b (counted list.old n)) }
    ensures part_value { result.part ≡ gone_of a b (start_at list.old i) (end_at list.old (j - 1)) }
    ensures list_after { list.new ≡ cut_list room (without a b (counted list.old n)) n list.old }
{
    let s = start_at(list, i);
    let e = end_at(list, j - 1);
    if s < a {
        if b < e {
            if room < n + 2 + i - j {
                return CutDone {
                    remains: None,
                    part: Part::Split,
                };
            }
            return CutDone {
                remains: Some(replace(list, n, i, j, &[[s, a], [b, e]])),
                part: Part::Split,
            };
        }
        return CutDone {
            remains: Some(replace(list, n, i, j, &[[s, a]])),
            part: Part::Right,
        };
    }
    if b < e {
        return CutDone {
            remains: Some(replace(list, n, i, j, &[[b, e]])),
            part: Part::Left,
        };
    }
    CutDone {
        remains: Some(replace(list, n, i, j, &[])),
        part: Part::Whole,
    }
}
