// How many values a refusal carries.
ghost use Rattle.answers.specs.Refusal.{Carries};

// How many values a refusal of this number carries: who shows an answer shows so many.
pub fn carried(number: u64) -> usize
    ensures { Carries number result }
{
    match number {
        3 | 5 | 6 | 26 => 2,
        _ => 0,
    }
}
