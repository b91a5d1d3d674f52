// Why the line of a record is refused.
ghost use Rattle.std.specs.Prelude.{◌≡◌};
ghost use Rattle.journal.specs.Refusals.{line_refusal_number};

#[derive(Clone, Copy, Debug, PartialEq, Eq)]
pub enum LineRefusal {
    // The journal has no such record.
    NoRecord = 50,
    // The place lies beyond the buffer's end.
    NoPlace = 51,
    // Too little space follows the place.
    NoSpace = 52,
}

impl LineRefusal {
    pub fn number(self) -> u32
        ensures { result ≡ line_refusal_number self }
    {
        self as u32
    }
}
