// What a book can be asked. Being asked changes nothing.
ghost use Rattle.std.specs.Prelude.{◌≡◌, ◌≤◌, length, take, None, slice_index_or};
ghost use Rattle.journal.specs.Refusals.{WritesLine};
ghost use Rattle.book.specs.Questions.{seat_bit, seat_word};
ghost use Rattle.book.specs.Standing.{status_of};
ghost use Rattle.book.specs.Chairs.{bodies_of, seats_of};
ghost use Rattle.book.specs.Views.{if_there};

use super::book::Book;
use super::chair::Chair;
use super::lists::Lists;
use super::status::Status;
use body::Body;
use journal::LineRefusal;
use lane::{Phase, Seated};

impl<B: Body> Book<B> {
    // How the book stands.
    pub fn status(&self) -> Status
        ensures { result ≡ status_of self.now }
    {
        let word = seat_word(&self.desk.chairs);
        let count = word.count_ones();
        Status {
            number: self.desk.common.number,
            flag: self.desk.common.flag,
            paused: self.desk.common.paused,
            used: self.desk.used,
            word,
            count,
            quiet: count == 0,
        }
    }

    // The body at a seat: of its transaction or, at an idle seat, of its last one.
    pub fn body(&self, seat: u32) -> Option<&B>
        ensures { if_there (λ x. x.now) result ≡ slice_index_or (bodies_of self.now.desk.chairs) seat None }
    {
        self.desk.body_at(seat)
    }

    // Writes the line of a record that is used into a buffer from a place on, and answers the place after it.
    pub fn line(
        &self,
        lists: &Lists<'_>,
        i: usize,
        buffer: &mut [u8],
        place: usize,
    ) -> Result<usize, LineRefusal>
        ensures { WritesLine (take self.now.desk.used lists.now.journal.now) i buffer.old place result buffer.new }
    {
        let used = self.desk.used.min(lists.journal.len());
        let journal = &*lists.journal;
        journal::line(&journal[..used], i, buffer, place)
    }
}

// The seats under way as a word.
fn seat_word<B>(chairs: &[Chair<B>]) -> u32
    requires { length chairs.now ≤ 9 }
    ensures { result ≡ seat_word (seats_of chairs.now) }
{
    chairs
        .iter()
        .rev()
        .fold(0, |word, chair| word << 1 | bit(chair.seated))
}

// 1 for a seat that is under way, and 0 for any other.
fn bit(seat: Option<Seated>) -> u32
    ensures { result ≡ seat_bit seat }
{
    let Some(seated) = seat else {
        return 0;
    };
    match seated.phase {
        Phase::Reserve | Phase::Begin => 0,
        _ => 1,
    }
}
