// Why a line has no answer of its own.
use answers::PusmarkeAnswer;
use answers::refusal::carried;
use console_text::inner::print::Numbers;
use console_text::inner::words::BadWord;
use outcomes::Refusal;
use std::fmt::{Display, Formatter};
use std::{fmt, io};

#[derive(Drop)]
pub enum Failure {
    // The line can't be taken.
    BadLine,
    // The call refused.
    Refused(Refused),
    // The answer could not be written.
    Unwritten(io::Error),
}

pub type Answered = Result<(), Failure>;

impl From<BadWord> for Failure {
    fn from(_: BadWord) -> Failure {
        Failure::BadLine
    }
}

impl From<Refusal> for Failure {
    fn from(refusal: Refusal) -> Failure {
        Failure::Refused(Refused(PusmarkeAnswer::from(refusal)))
    }
}

impl From<io::Error> for Failure {
    fn from(error: io::Error) -> Failure {
        Failure::Unwritten(error)
    }
}

// A refusal in numbers, shown as its own and the values that a refusal of this number carries.
#[derive(Clone, Copy)]
pub struct Refused(pub PusmarkeAnswer);

impl Display for Refused {
    fn fmt<W: fmt::Write>(&self, f: &mut Formatter<W>) -> fmt::Result {
        let answer = self.0;
        let values = [answer.first, answer.second, answer.third];
        let carried = carried(answer.refusal).min(values.len());
        write!(
            f,
            "refused {}{}",
            answer.refusal,
            Numbers(&values[..carried])
        )
    }
}
