// What a step answers.
ghost use Rattle.std.specs.Prelude.{◌≡◌};
ghost use Rattle.lane.specs.Numbers.{answer_number};

#[derive(Clone, Copy, Debug, PartialEq)]
pub enum Answer {
    // The seat has gone on.
    GoneOn,
    // Another must go first.
    Waiting,
    // A pause stands.
    Paused,
    // The attempt met a commit and begins anew.
    BrokenOff,
    // The transaction has committed, under this number.
    Committed(u32),
    // The transaction does not fit its logs, and is given up.
    TooLong,
}

impl Answer {
    // An enum with a payload has no number by `as`.
    pub fn number(self) -> u32
        ensures { result ≡ answer_number self }
    {
        match self {
            Answer::GoneOn => 0,
            Answer::Waiting => 1,
            Answer::Paused => 2,
            Answer::BrokenOff => 3,
            Answer::Committed(_) => 4,
            Answer::TooLong => 5,
        }
    }
}
