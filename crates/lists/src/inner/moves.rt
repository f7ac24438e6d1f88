// Inner: a run of ranges in a lent flat list, replaced by others.
ghost use Rattle.std.specs.Prelude.{◌≡◌, ◌+◌, ◌*◌, ◌-◌, ◌≤◌, length, replicate};
ghost use Rattle.lists.specs.Pairs.{ranges_of};
ghost use Rattle.ranges.specs.Store.{counted, stored, flat, most_numbers};
ghost use Rattle.ranges.specs.Inner.Moves.{over, shifted, replaced};

// The n numbers from place `from` on, moved to place `to`. Where they are there already, none is copied.
pub fn shift(list: &mut [u64], from: usize, to: usize, n: usize)
    requires { (from + n ≤ length list.old) × (to + n ≤ length list.old) }
    ensures { list.new ≡ shifted list.old from to n }
{
    if from != to {
        list.copy_within(from..from + n, to);
    }
}

// The pairs are written from pair i on.
fn write(list: &mut [u64], i: usize, pairs: &[[u64; 2]])
    requires { 2 * (i + length pairs.now) ≤ length list.old }
    ensures size { length (ranges_of pairs.now) ≡ length pairs.now }
    ensures list_after { list.new ≡ over list.old (2 * i) (2 * length pairs.now) (flat (ranges_of pairs.now)) }
{
    list[2 * i..2 * (i + pairs.len())].copy_from_slice(pairs.as_flattened());
}

// The slots that are given up, from pair m up to pair n, are (0, 0).
pub fn tidy(list: &mut [u64], m: usize, n: usize)
    requires { (2 * m ≤ length list.old) × (2 * n ≤ length list.old) }
    ensures { list.new ≡ over list.old (2 * m) (2 * n - 2 * m) (replicate (2 * n - 2 * m) 0) }
{
    if m < n {
        list[2 * m..2 * n].fill(0);
    }
}

// Of n ranges, those from place i up to but not including place j give way to the pairs.
pub fn replace(list: &mut [u64], n: usize, i: usize, j: usize, pairs: &[[u64; 2]]) -> usize
    requires i_le_j { (i ≤ j) × (j ≤ n) }
    requires n_in_bounds { (2 * n ≤ length list.old) × ((2 * (n + length pairs.now + i) ≤ length list.old + 2 * j) × (length list.old ≤ most_numbers)) }
    ensures value { result ≡ length (replaced i j (ranges_of pairs.now) (counted list.old n)) }
    ensures list_after { list.new ≡ stored (replaced i j (ranges_of pairs.now) (counted list.old n)) n list.old }
{
    let k = pairs.len();
    let m = n + k + i - j;
    shift(list, 2 * j, 2 * (i + k), 2 * (n - j));
    write(list, i, pairs);
    tidy(list, m, n);
    m
}
