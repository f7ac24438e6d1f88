// The numbers of what an accepted call hands back.
ghost use Rattle.std.specs.Prelude.{◌≡◌, ℕ, List, [], ◌∷◌};
ghost use Rattle.outcomes.specs.Outcome.{accepted};
ghost use Rattle.outcomes.specs.Answered.{nothing, itself, yes_or_no};
ghost use Rattle.segment_store.specs.Remove.{removed_values};
ghost use Rattle.reception.specs.Data.{received_values};
ghost use Rattle.sequence.specs.Sequence.{sent_values};
ghost use Rattle.answers.specs.Answer.{answer_of};

use crate::PusmarkeAnswer;
use reception::data::Received;
use segment_store::remove::Removed;
use sequence::Sent;

pub trait Numbers {
    // In order; no value has more than three.
    ghost numbers: { Self → List ℕ };

    fn in_numbers(self) -> PusmarkeAnswer
        ensures { result ≡ answer_of (accepted (numbers self)) };
}

impl Numbers for () {
    ghost numbers = { nothing };

    fn in_numbers(self) -> PusmarkeAnswer {
        PusmarkeAnswer::accepted(0, 0, 0)
    }
}

impl Numbers for u64 {
    ghost numbers = { itself };

    fn in_numbers(self) -> PusmarkeAnswer {
        PusmarkeAnswer::accepted(self, 0, 0)
    }
}

impl Numbers for usize {
    ghost numbers = { itself };

    fn in_numbers(self) -> PusmarkeAnswer {
        (self as u64).in_numbers()
    }
}

// 1 for yes, 0 for no.
impl Numbers for bool {
    ghost numbers = { yes_or_no };

    fn in_numbers(self) -> PusmarkeAnswer {
        match self {
            true => PusmarkeAnswer::accepted(1, 0, 0),
            false => PusmarkeAnswer::accepted(0, 0, 0),
        }
    }
}

// What left, by its number, the index and the count.
fn taken(what: u64, index: usize, count: usize) -> PusmarkeAnswer
    ensures { result ≡ answer_of (accepted (what ∷ index ∷ count ∷ [])) }
{
    PusmarkeAnswer::accepted(what, index as u64, count as u64)
}

impl Numbers for Removed {
    ghost numbers = { removed_values };

    fn in_numbers(self) -> PusmarkeAnswer {
        match self {
            Removed::Whole(index, count) => taken(1, index, count),
            Removed::Left(index, count) => taken(2, index, count),
            Removed::Right(index, count) => taken(3, index, count),
            Removed::Split(index, count) => taken(4, index, count),
            Removed::NotStored(count) => taken(0, 0, count),
        }
    }
}

impl Numbers for Received {
    ghost numbers = { received_values };

    fn in_numbers(self) -> PusmarkeAnswer {
        match self {
            Received::Noticed => PusmarkeAnswer::accepted(0, 0, 0),
            Received::Kept => PusmarkeAnswer::accepted(1, 0, 0),
        }
    }
}

impl Numbers for Sent {
    ghost numbers = { sent_values };

    fn in_numbers(self) -> PusmarkeAnswer {
        PusmarkeAnswer::accepted(self.pdus as u64, self.octets as u64, self.cursor as u64)
    }
}
