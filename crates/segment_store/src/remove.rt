// What remove takes out.

// Which part of a range left, the range's index in the list before, and the count afterwards.
#[derive(Clone, Copy, Debug, PartialEq, Eq)]
pub enum Removed {
    Whole(usize, usize),
    Left(usize, usize),
    Right(usize, usize),
    Split(usize, usize),
    // No offset was stored; the count alone.
    NotStored(usize),
}
