// The refusals of every call, once, and in numbers too.
#![tactic(auto)]

ghost use Rattle.std.specs.Prelude.{◌≡◌, [], ◌∷◌};
ghost use Rattle.outcomes.specs.Outcome.{refused};
ghost use Rattle.outcomes.specs.Refusal.{refusing};
ghost use Rattle.outcomes.specs.Told.{told_of};

// A refusal with what it carries. Its number is in specs/Refusal.antt, its condition in docs/REFUSALS.md.
#[derive(Clone, Copy, Debug, PartialEq, Eq)]
pub enum Refusal {
    StoreFull,
    EmptySegment,
    // Start, end.
    StartLargerThanEnd(u64, u64),
    LargeFileSegmentNotSupported,
    // Start, end.
    InvalidSegmentBoundary(u64, u64),
    // Needed, given.
    BufferSizeMissmatch(usize, usize),
    LargeSegmentForNormalFileSize,
    NotCoalesced,
    RangeTooLong,
    BadStore,
    BadCursor,
    ScopeBelowList,
    BadIdentity,
    PduSize,
    BadHeader,
    LengthMismatch,
    NotNak,
    ScopeReversed,
    AlreadyKnown,
    BudgetTooLarge,
    BadTrailer,
    FileSizeError,
    BadPool,
    BadTimer,
    // Test, PDU.
    BadPlan(usize, usize),
}

// A refusal in numbers: its own, and the values that it carries, 0 where there is none.
#[derive(Clone, Copy)]
pub struct Told {
    pub number: u64,
    pub first: u64,
    pub second: u64,
    pub third: u64,
}

fn bare(number: u64) -> Told
    ensures { result ≡ told_of (refused number []) }
{
    pair(number, 0, 0)
}

fn pair(number: u64, first: u64, second: u64) -> Told
    ensures { result ≡ told_of (refused number (first ∷ second ∷ [])) }
{
    Told {
        number,
        first,
        second,
        third: 0,
    }
}

impl From<Refusal> for Told {
    ghost from_gives = { λ r told. told ≡ told_of (refusing r) };

    fn from(r: Refusal) -> Told {
        match r {
            Refusal::StoreFull => bare(1),
            Refusal::EmptySegment => bare(2),
            Refusal::StartLargerThanEnd(s, e) => pair(3, s, e),
            Refusal::LargeFileSegmentNotSupported => bare(4),
            Refusal::InvalidSegmentBoundary(s, e) => pair(5, s, e),
            Refusal::BufferSizeMissmatch(needed, given) => pair(6, needed as u64, given as u64),
            Refusal::LargeSegmentForNormalFileSize => bare(7),
            Refusal::NotCoalesced => bare(8),
            Refusal::RangeTooLong => bare(9),
            Refusal::BadStore => bare(10),
            Refusal::BadCursor => bare(11),
            Refusal::ScopeBelowList => bare(12),
            Refusal::BadIdentity => bare(13),
            Refusal::PduSize => bare(14),
            Refusal::BadHeader => bare(15),
            Refusal::LengthMismatch => bare(16),
            Refusal::NotNak => bare(17),
            Refusal::ScopeReversed => bare(18),
            Refusal::AlreadyKnown => bare(19),
            Refusal::BudgetTooLarge => bare(20),
            Refusal::BadTrailer => bare(21),
            Refusal::FileSizeError => bare(22),
            Refusal::BadPool => bare(23),
            Refusal::BadTimer => bare(25),
            Refusal::BadPlan(test, pdu) => pair(26, test as u64, pdu as u64),
        }
    }
}
