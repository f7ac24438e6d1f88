// The answers of the calls in numbers, for C and for the console.
#![tactic(auto)]

ghost use Rattle.std.specs.Prelude.{◌≡◌, [], ◌∷◌};
ghost use Rattle.outcomes.specs.Outcome.{accepted};
ghost use Rattle.outcomes.specs.Answered.{answered};
ghost use Rattle.outcomes.specs.Refusal.{refusing};
ghost use Rattle.answers.specs.Answer.{answer_of};

use crate::numbers::Numbers;
use outcomes::{Refusal, Told};

pub mod numbers; // numbers.rt: the numbers of what a call hands back
pub mod refusal; // refusal.rt: how many values a refusal carries

// What a call answers: 0 or the refusal's number, and its values in order, 0 where there is none.
#[repr(C)]
#[derive(Clone, Copy)]
pub struct PusmarkeAnswer {
    pub refusal: u64,
    pub first: u64,
    pub second: u64,
    pub third: u64,
}

impl PusmarkeAnswer {
    // An accepted call; where it has fewer than three values, 0 stands for the others.
    pub fn accepted(first: u64, second: u64, third: u64) -> PusmarkeAnswer
        ensures { result ≡ answer_of (accepted (first ∷ second ∷ third ∷ [])) }
    {
        PusmarkeAnswer {
            refusal: 0,
            first,
            second,
            third,
        }
    }
}

impl From<Refusal> for PusmarkeAnswer {
    ghost from_gives = { λ r answer. answer ≡ answer_of (refusing r) };

    fn from(r: Refusal) -> PusmarkeAnswer {
        let told = Told::from(r);
        PusmarkeAnswer {
            refusal: told.number,
            first: told.first,
            second: told.second,
            third: told.third,
        }
    }
}

impl<A: Numbers> From<Result<A, Refusal>> for PusmarkeAnswer {
    ghost from_gives = { λ said answer. answer ≡ answer_of (answered A.numbers said) };

    fn from(said: Result<A, Refusal>) -> PusmarkeAnswer {
        match said {
            Ok(value) => value.in_numbers(),
            Err(r) => PusmarkeAnswer::from(r),
        }
    }
}
