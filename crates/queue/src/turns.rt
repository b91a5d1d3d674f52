// Joining the queue, being first in it, and leaving it.
ghost use Rattle.std.specs.Prelude.{◌≡◌, []};
ghost use Rattle.lane.specs.State.{first_is, without};
ghost use Rattle.queue.specs.Queued.{queued, with_last};

use super::line::Queue;

// The most seats that can be in the queue.
const ROOM: usize = 8;

impl Queue {
    pub fn new() -> Queue
        ensures { queued result ≡ [] }
    {
        Queue {
            seats: [0; 8],
            len: 0,
        }
    }

    pub fn is_first(&self, seat: u32) -> bool
        ensures { result ≡ first_is seat (queued self.now) }
    {
        self.len > 0 && self.seats[0] == seat
    }

    // The seat enters the queue's end.
    pub fn join(&mut self, seat: u32)
        ensures { queued self.new ≡ with_last seat (queued self.old) }
    {
        if self.len < ROOM {
            self.seats[self.len] = seat;
            self.len += 1;
        }
    }

    // The seat leaves the queue. By places, since those that stay move to the front of an array.
    pub fn leave(&mut self, seat: u32)
        ensures { queued self.new ≡ without seat (queued self.old) }
    {
        let mut seats = self.seats;
        let mut kept = 0;
        for i in 0..self.len {
            if self.seats[i] != seat {
                seats[kept] = self.seats[i];
                kept += 1;
            }
        }
        self.seats = seats;
        self.len = kept;
    }
}
