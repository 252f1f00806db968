// How a run can end: document 01, "Numbers the run gives back".
ghost use Rattle.std.specs.Prelude.{◌≡◌};
ghost use Rattle.control.specs.Answers.{number_of};

#[derive(Clone, Copy)]
pub enum Answer {
    // The place equals the code's length.
    Done,
    // The allowance is used up, and the place is before the end.
    Spent,
    // The memory is wrongly placed.
    Misplaced,
    // More than 16,384 code words.
    LongCode,
    // The start place is beyond the code's length.
    BadStart,
    // The word is no carried instruction.
    NoInstruction,
    // A carried instruction with a reserved bit set.
    Reserved,
    // The address is outside memory.
    Outside,
}

// The number that the run gives back.
impl From<Answer> for u32 {
    ghost from_gives = { λ answer number. number ≡ number_of answer };

    fn from(answer: Answer) -> u32 {
        match answer {
            Answer::Done => 0,
            Answer::Spent => 1,
            Answer::Misplaced => 2,
            Answer::LongCode => 3,
            Answer::BadStart => 4,
            Answer::NoInstruction => 5,
            Answer::Reserved => 6,
            Answer::Outside => 7,
        }
    }
}
