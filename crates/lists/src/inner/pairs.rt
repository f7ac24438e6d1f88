// Inner: the pairs of a lent flat list, one by one. Nothing else says where the numbers of a pair lie.
ghost use Rattle.std.specs.Prelude.{◌≡◌, ◌+◌, ◌*◌, ◌≤◌, length, map, set};
ghost use Rattle.lists.specs.Pairs.{pair_of};
ghost use Rattle.ranges.specs.Store.{counted, start_at, end_at};

// The first n pairs.
pub fn counted(list: &[u64], n: usize) -> &[[u64; 2]]
    requires { 2 * n ≤ length list.now }
    ensures value { result.now ≡ map pair_of (counted list.now n) }
    ensures len { length result.now ≡ n }
{
    &list.as_chunks::<2>().0[..n]
}

// The start of pair i.
pub fn start_at(list: &[u64], i: usize) -> u64
    requires { 2 * i + 2 ≤ length list.now }
    ensures { result ≡ start_at list.now i }
{
    list[2 * i]
}

// The end of pair i.
pub fn end_at(list: &[u64], i: usize) -> u64
    requires { 2 * i + 2 ≤ length list.now }
    ensures { result ≡ end_at list.now i }
{
    list[2 * i + 1]
}

// (s, e) is written as pair i.
pub fn put_pair(list: &mut [u64], i: usize, s: u64, e: u64)
    requires { 2 * i + 2 ≤ length list.old }
    ensures { list.new ≡ set (set list.old (2 * i) s) (2 * i + 1) e }
{
    list[2 * i] = s;
    list[2 * i + 1] = e;
}

// e is written as the end of pair i.
pub fn put_end(list: &mut [u64], i: usize, e: u64)
    requires { 2 * i + 2 ≤ length list.old }
    ensures { list.new ≡ set list.old (2 * i + 1) e }
{
    list[2 * i + 1] = e;
}
