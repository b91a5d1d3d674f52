// Seating a transaction.
ghost use Rattle.std.specs.Prelude.{◌≡◌, ℕ, ◌+◌, ◌-◌, ◌^◌, ◌<◌, ◌≤◌, min, not, length, nat_lt};
ghost use Rattle.std.specs.Result.{IfOk, result_err};
ghost use Rattle.lane.specs.Calls.{first_phase, kept, kept_by, needed, seat_refusal, seat_world, taken_way, way_of};
ghost use Rattle.book.specs.Chairs.{seats_of};
ghost use Rattle.book.specs.Views.{bare};

use super::book::Book;
use super::chair::Chair;
use super::desk::Desk;
use super::limits::{MOST_WRITES, TOP_NUMBER};
use body::Body;
use lane::{Phase, SeatRefusal, Seated, Way};

impl<B: Body> Book<B> {
    // Refuses with the first condition that fails, and tells the way otherwise. The way is still the number that `seat` was asked with.
    pub(crate) fn admit(&self, seat: u32, way_number: u32, body: &B) -> Result<Way, SeatRefusal>
        ensures refused { result_err result ≡ seat_refusal B.Body (bare self.now.desk) seat way_number body.now }
        ensures admitted { IfOk result (λ way. way ≡ taken_way B.Body (way_of seat way_number)) }
    {
        if seat > self.desk.helpers {
            return Err(SeatRefusal::NoSeat);
        }
        if self.desk.seated_at(seat).is_some() {
            return Err(SeatRefusal::NotIdle);
        }
        let way = way(seat, way_number).ok_or(SeatRefusal::NoWay)?;
        if body.reach_of() > self.desk.sizes.cells {
            return Err(SeatRefusal::Reach);
        }
        if self.desk.common.number >= TOP_NUMBER {
            return Err(SeatRefusal::Number);
        }
        if self.desk.lacks_records(seat, body.length_of()) {
            return Err(SeatRefusal::Records);
        }
        Ok(way)
    }
}

impl<B: Body + Drop> Desk<B> {
    // Seats a transaction that is not refused.
    pub(crate) fn place(&mut self, seat: u32, way: Way, tag: u32, body: B)
        requires seats { seat ≤ 8 }
        requires records { needed seat (B.Body.len body) ≤ 65536 }
        ensures { (y : ℕ) → way ≡ taken_way B.Body (way_of seat y) → bare self.new ≡ seat_world B.Body (bare self.old) seat y tag body }
    {
        let at = seat as usize;
        let keeps = records_needed(seat, body.length_of()) as u32;
        self.chairs[at] = Chair {
            seated: Some(Seated {
                phase: first_phase(seat),
                way,
                tag,
                start: 0,
                reads: 0,
                writes: 0,
                made: 0,
                keeps,
            }),
            body: Some(body),
        };
    }
}

impl<B> Desk<B> {
    // Whether too few records are left for a transaction of this length.
    fn lacks_records(&self, seat: u32, length: usize) -> bool
        requires { self.now.sizes.journal ≤ 65536 }
        ensures { result ≡ nat_lt self.now.sizes.journal (self.now.used + kept (seats_of self.now.chairs) + needed seat length) }
    {
        let kept = records_kept(&self.chairs);
        let needed = records_needed(seat, length);
        self.used.saturating_add(kept).saturating_add(needed) > self.sizes.journal
    }
}

// Where a seat's transaction begins.
fn first_phase(seat: u32) -> Phase
    ensures { result ≡ first_phase seat }
{
    if seat == 0 {
        Phase::Reserve
    } else {
        Phase::Begin
    }
}

// The way that a seat is asked for by a number: 0 at the master's, 1 to 3 at a helper's.
fn way(seat: u32, number: u32) -> Option<Way>
    ensures { result ≡ way_of seat number }
{
    match (seat, number) {
        (0, 0) => Some(Way::One),
        (0, _) => None,
        (_, 1) => Some(Way::One),
        (_, 2) => Some(Way::Two),
        (_, 3) => Some(Way::Three),
        _ => None,
    }
}

// The records that a transaction needs: one for each change, and one for its commit.
fn records_needed(seat: u32, length: usize) -> usize
    ensures { result ≡ min (needed seat length) (2 ^ 64 - 1) }
{
    if seat == 0 {
        length.saturating_add(1)
    } else {
        length.min(MOST_WRITES) + 1
    }
}

// The records that the seated transactions keep.
#[tactic(auto, using(crate::proofs::Chairing::kept_is))]
fn records_kept<B>(chairs: &[Chair<B>]) -> usize
    requires { length chairs.now ≤ 9 }
    ensures { result ≡ kept (seats_of chairs.now) }
{
    chairs
        .iter()
        .map(|chair| keeps(chair.seated) as usize)
        .sum()
}

// What the transaction at a seat keeps. One that is only to leave the queue has committed, and keeps nothing.
fn keeps(seat: Option<Seated>) -> u32
    ensures { result ≡ kept_by seat }
{
    let Some(seated) = seat else {
        return 0;
    };
    match seated.phase {
        Phase::Leave => 0,
        _ => seated.keeps,
    }
}
