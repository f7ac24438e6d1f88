// Inner: where the ranges of one transfer lie in the pool's list, and how those behind them move. Each function asks for what its callers
// have checked.
ghost use Rattle.std.specs.Prelude.{◌≡◌, ◌+◌, ◌*◌, ◌-◌, ◌≤◌, length};
ghost use Rattle.ranges.specs.Store.{most_numbers};
ghost use Rattle.ranges.specs.Inner.Moves.{shifted};
ghost use Rattle.resizing.specs.Inner.{closed_up, LiesIn};

use lists::inner::moves::{shift, tidy};

// `count` ranges from place `at` on, of the `total` that the pool holds; `full` says that there is no room for one range more.
#[derive(Clone, Copy)]
pub struct Place {
    pub at: usize,
    pub count: usize,
    pub total: usize,
    pub full: bool,
}

// The ranges behind those of the transfer move up by one.
pub fn make_room(list: &mut [u64], place: Place)
    requires { LiesIn place list.old × (2 * (place.total + 1) ≤ length list.old) }
    ensures { list.new ≡ shifted list.old (2 * (place.at + place.count)) (2 * (place.at + place.count + 1)) (2 * (place.total - (place.at + place.count))) }
{
    let behind = place.at + place.count;
    let moving = place.total - behind;
    shift(list, 2 * behind, 2 * (behind + 1), 2 * moving);
}

// Of the transfer's ranges n are left: those behind them move down, and the slots given up at the end are (0, 0).
pub fn close_up(list: &mut [u64], place: Place, n: usize)
    requires { (n ≤ place.count) × LiesIn place list.old }
    ensures { list.new ≡ closed_up place.at place.count n place.total list.old }
{
    let behind = place.at + place.count;
    let moving = place.total - behind;
    shift(list, 2 * behind, 2 * (place.at + n), 2 * moving);
    tidy(list, place.total - (place.count - n), place.total);
}
