// A total is a body: it reads its range in order and writes the sum.
ghost use Rattle.std.specs.Prelude.{◌≡◌};
ghost use Rattle.body.specs.Totals.{kept_step, sum_known, sum_told, total_asks, total_begin, total_left, total_len, total_reach, total_taken, total_told};
ghost use Rattle.body.specs.TotalLaws.{total_lawful};

use super::body::Body;
use super::request::Request;
use super::sum::{Total, TotalStep};
use money::is_within;

impl Body for Total {
    const KIND: u32 = 2;

    ghost KIND = { 2 };

    ghost asks = { total_asks };

    ghost told = { total_told };

    ghost taken = { total_taken };

    ghost begin = { total_begin };

    ghost left = { total_left };

    ghost reach = { total_reach };

    ghost len = { total_len };

    ghost lawful = { total_lawful };

    #[inline(always)]
    fn request(&self) -> Request {
        match self.kept_step() {
            TotalStep::Read { at, .. } => Request::Read(usize::from(at)),
            TotalStep::Write { sum } => Request::Write(usize::from(self.target), sum),
            TotalStep::Done => Request::End,
        }
    }

    fn tell(&mut self, amount: i64) {
        if let TotalStep::Read { at, sum } = self.kept_step() {
            self.step = self.after(at, sum, amount);
        }
    }

    fn took(&mut self) {
        if let TotalStep::Write { .. } = self.kept_step() {
            self.step = TotalStep::Done;
        }
    }

    fn restart(&mut self) {
        self.step = TotalStep::Read {
            at: self.first,
            sum: 0,
        };
    }

    fn reach_of(&self) -> usize {
        usize::from(self.last.max(self.target)) + 1
    }

    fn length_of(&self) -> usize {
        usize::from(self.last.saturating_sub(self.first)) + 2
    }
}

impl Total {
    // The step, where it keeps the laws; otherwise the end.
    #[inline(always)]
    fn kept_step(&self) -> TotalStep
        ensures { result ≡ kept_step self.now.last self.now.step }
    {
        match self.step {
            TotalStep::Read { at, .. } if at > self.last => TotalStep::Done,
            TotalStep::Write { sum } if !is_within(sum) => TotalStep::Done,
            step => step,
        }
    }

    // What comes after the amount in this cell, of which the sum of those before it is known.
    fn after(&self, at: u16, sum: i64, amount: i64) -> TotalStep
        ensures { result ≡ sum_told self.now.last at sum amount }
    {
        if !is_within(amount) {
            return TotalStep::Done;
        }
        let sum = sum.saturating_add(amount);
        if at < self.last {
            TotalStep::Read { at: at + 1, sum }
        } else if is_within(sum) {
            TotalStep::Write { sum }
        } else {
            TotalStep::Done
        }
    }
}
