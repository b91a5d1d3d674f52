// A ticket for a pause. Pause alone makes one, it has no copy, and it must be given to resume before it goes out of use.
ghost use Rattle.std.specs.Prelude.{◌≡◌, false};

pub struct Ticket {
    // The name of the book that is paused.
    pub(crate) book: u32,
    // Whether it is still to be given to resume: a field, since a ticket of a type with no Drop at all could not be let go once it
    // is spent.
    pub(crate) owed: bool,
}

// By hand, since a derived one requires nothing.
impl Drop for Ticket {
    fn drop(self)
        requires { self.owed ≡ false }
    {
        let Ticket { book: _, owed: _ } = self;
    }
}

// Why a resume is refused.
pub enum ResumeRefusal {
    // The ticket is of another book, and comes back.
    OtherBook(Ticket),
    // No pause stands. The ticket is spent.
    NotPaused,
}
