// The calls of a book. Each promises its answer and all that it leaves, by the definitions of the calls; and that the law of
// runs holds, whatever calls came before.
ghost use Rattle.std.specs.Prelude.{◌≡◌};
ghost use Rattle.lane.specs.Calls.{pause_call, resume_call, seat_call, seat_refusal, step_call, step_reply};
ghost use Rattle.lane.specs.History.{History};
ghost use Rattle.lane.specs.Kept.{KeepsLaw};
ghost use Rattle.lane.specs.Law.{Opening};
ghost use Rattle.lane.specs.Runs.{Ran};
ghost use Rattle.lane.specs.Tellings.{Answered, Tells};
ghost use Rattle.book.specs.Books.{OpensBook, book_world, pause_answer, resume_answer, resume_refusal_number};
ghost use Rattle.book.specs.declared.lists.Lists.{Lists as Lent};
ghost use Rattle.book.specs.Chairs.{bodies_of};
ghost use Rattle.book.specs.Seatings.{seat_answer};

use super::book::Book;
use super::lists::Lists;
use super::opening::Terms;
use super::refused::SeatRefused;
use super::ticket::{ResumeRefusal, Ticket};
use body::Body;
use lane::{Answer, OpenRefusal, PauseRefusal, StepRefusal};

impl<B: Body + Drop> Book<B> {
    // Opens a book over the lists, with so many helpers, at this number.
    pub fn open(
        name: u32,
        lists: &mut Lists<'_>,
        helpers: u32,
        number: u32,
    ) -> Result<Book<B>, OpenRefusal>
        ensures { OpensBook B.Body name helpers number lists.old result lists.new }
    {
        let terms = Terms {
            name,
            helpers,
            number,
        };
        terms.admit(lists)?;
        let desk = terms.desk(lists);
        lists.marks.fill(0);
        Ok(Book { desk })
    }

    // Seats a transaction. A body that is refused comes back. The way comes as a number, since a number of no way is one of
    // the reasons to refuse.
    pub fn seat(&mut self, seat: u32, way: u32, tag: u32, body: B) -> Result<(), SeatRefused<B>>
        ensures answer { (l : Lent) → result ≡ seat_answer body (seat_refusal B.Body (book_world self.old l) seat way body) }
        ensures after { (l : Lent) → book_world self.new l ≡ (seat_call B.Body (book_world self.old l) seat way tag body).world }
        ensures law { (l : Lent) → KeepsLaw B.Body (book_world self.old l) (seat_call B.Body (book_world self.old l) seat way tag body) (book_world self.new l) }
    {
        match self.admit(seat, way, &body) {
            Ok(admitted) => {
                self.desk.place(seat, admitted, tag, body);
                Ok(())
            }
            Err(refusal) => Err(SeatRefused { refusal, body }),
        }
    }

    // One atomic step of a seat.
    pub fn step(&mut self, lists: &mut Lists<'_>, seat: u32) -> Result<Answer, StepRefusal>
        ensures answer { result ≡ step_reply B.Body (book_world self.old lists.old) seat }
        ensures after { book_world self.new lists.new ≡ (step_call B.Body (book_world self.old lists.old) seat).world }
        ensures law { KeepsLaw B.Body (book_world self.old lists.old) (step_call B.Body (book_world self.old lists.old) seat) (book_world self.new lists.new) }
        ensures tells { Tells B.Body (step_call B.Body (book_world self.old lists.old) seat).moment.call (bodies_of self.old.desk.chairs) (bodies_of self.new.desk.chairs) }
        ensures answers { (o : Opening) (h : History B) → Ran B.Body o h (book_world self.old lists.old) → Answered B.Body (step_call B.Body (book_world self.old lists.old) seat).moment.call (bodies_of self.old.desk.chairs) }
    {
        let ready = self.ready(lists, seat)?;
        self.desk.act(lists, seat, ready);
        Ok(ready.step.answer)
    }

    // Gives a ticket, unless a pause stands.
    pub fn pause(&mut self) -> Result<Ticket, PauseRefusal>
        ensures answer { result ≡ pause_answer self.old }
        ensures after { (l : Lent) → book_world self.new l ≡ (pause_call (book_world self.old l)).world }
        ensures law { (l : Lent) → KeepsLaw B.Body (book_world self.old l) (pause_call (book_world self.old l)) (book_world self.new l) }
    {
        if self.desk.common.paused {
            return Err(PauseRefusal);
        }
        self.desk.common.paused = true;
        Ok(Ticket {
            book: self.desk.name,
            owed: true,
        })
    }

    // Lifts the pause. A ticket of another book comes back; any other is spent.
    pub fn resume(&mut self, mut ticket: Ticket) -> Result<(), ResumeRefusal>
        ensures answer { result ≡ resume_answer self.old ticket }
        ensures after { (l : Lent) → book_world self.new l ≡ (resume_call (book_world self.old l) ticket.book).world }
        ensures law { (l : Lent) → KeepsLaw B.Body (book_world self.old l) (resume_call (book_world self.old l) ticket.book) (book_world self.new l) }
    {
        if ticket.book != self.desk.name {
            return Err(ResumeRefusal::OtherBook(ticket));
        }
        ticket.owed = false;
        if !self.desk.common.paused {
            return Err(ResumeRefusal::NotPaused);
        }
        self.desk.common.paused = false;
        Ok(())
    }
}

impl ResumeRefusal {
    // A match, since an enum that holds a ticket has no number of its own.
    pub fn number(&self) -> u32
        ensures { result ≡ resume_refusal_number self.now }
    {
        match self {
            ResumeRefusal::OtherBook(_) => 40,
            ResumeRefusal::NotPaused => 41,
        }
    }
}
