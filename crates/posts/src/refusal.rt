// Why an import that the check admits is not booked.
ghost use Rattle.std.specs.Prelude.{◌≡◌, Some};
ghost use Rattle.posts.specs.declared.refusal.BookingRefusal.TheVariants.{Open, Seat, Step};
ghost use Rattle.posts.specs.Refusals.{booking_refusal_number, booking_refusal_text};

use book::SeatRefused;
use lane::{OpenRefusal, SeatRefusal, StepRefusal};
use std::fmt;

#[derive(Clone, Copy)]
pub(crate) enum BookingRefusal {
    Open(OpenRefusal),
    Seat(SeatRefusal),
    Step(StepRefusal),
}

impl BookingRefusal {
    pub(crate) fn number(self) -> u32
        ensures { result ≡ booking_refusal_number self }
    {
        // A match, since the number is that of the refusal inside.
        match self {
            BookingRefusal::Open(refusal) => refusal.number(),
            BookingRefusal::Seat(refusal) => refusal.number(),
            BookingRefusal::Step(refusal) => refusal.number(),
        }
    }
}

// By hand, as the next two, since a `From` that a derive writes has no contract, and clauses name what `?` makes.
impl From<OpenRefusal> for BookingRefusal {
    ghost from_gives = { λ refusal r. r ≡ Open refusal };

    fn from(refusal: OpenRefusal) -> BookingRefusal {
        BookingRefusal::Open(refusal)
    }
}

// The body that comes back is let go.
impl<B: Drop> From<SeatRefused<B>> for BookingRefusal {
    ghost from_gives = { λ refused r. r ≡ Seat refused.refusal };

    fn from(refused: SeatRefused<B>) -> BookingRefusal {
        BookingRefusal::Seat(refused.refusal)
    }
}

impl From<StepRefusal> for BookingRefusal {
    ghost from_gives = { λ refusal r. r ≡ Step refusal };

    fn from(refusal: StepRefusal) -> BookingRefusal {
        BookingRefusal::Step(refusal)
    }
}

// 0 in place of a line, since none of the text is at fault; and the number, behind a tab.
impl fmt::Display for BookingRefusal {
    ghost output = { λ refusal. Some (booking_refusal_text refusal) };

    fn fmt<W: fmt::Write>(&self, f: &mut fmt::Formatter<W>) -> fmt::Result {
        let number = self.number();
        write!(f, "0\t{number}")
    }
}
