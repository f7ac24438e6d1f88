// What an accepted data event does.

// While the metadata is missing the range is noticed, and else it is kept.
#[derive(Clone, Copy, Debug, PartialEq, Eq)]
pub enum Received {
    Noticed,
    Kept,
}
