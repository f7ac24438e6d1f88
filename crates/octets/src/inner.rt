// Inner: not part of the public interface. These have a `requires`, which their callers show.
ghost use Rattle.std.specs.Prelude.{◌≡◌, ◌+◌, ◌*◌, ◌≤◌, length, take, drop};
ghost use Rattle.octets.specs.Octets.{field, fields, number, with_octets};

// The number v goes into the f octets from `at` on, the last octet first. By place: of what is written through iter_mut().rev() no
// clause says what the buffer ends as.
pub fn put(buf: &mut [u8], at: usize, f: usize, v: u64)
    requires { at + f ≤ length buf.old }
    ensures { buf.new ≡ with_octets buf.old at (field f v) }
{
    let mut rest = v;
    for i in (0..f).rev() {
        buf[at + i] = (rest % 256) as u8;
        rest /= 256;
    }
}

// The number in the f octets from `at` on.
pub fn get(buf: &[u8], at: usize, f: usize) -> u64
    requires { (f ≤ 8) × (at + f ≤ length buf.now) }
    ensures { result ≡ number (take f (drop at buf.now)) }
{
    let mut v = 0;
    for &octet in &buf[at..at + f] {
        v = v * 256 + u64::from(octet);
    }
    v
}

// The n numbers of the list from `from` on go into the buffer from `at` on, f octets each.
pub fn put_all(buf: &mut [u8], at: usize, f: usize, list: &[u64], from: usize, n: usize)
    requires { (at + f * n ≤ length buf.old) × (from + n ≤ length list.now) }
    ensures { buf.new ≡ with_octets buf.old at (fields f (take n (drop from list.now))) }
{
    let mut place = at;
    for &v in &list[from..from + n] {
        put(buf, place, f, v);
        place += f;
    }
}
