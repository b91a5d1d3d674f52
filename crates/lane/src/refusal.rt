// Why a call is refused. A refused call changes nothing. Each refusal has a number of its own; each enum tells it itself, since a
// trait for it would repeat the cast in each impl.
ghost use Rattle.std.specs.Prelude.{◌≡◌};
ghost use Rattle.lane.specs.Numbers.{open_refusal_number, pause_refusal_number, seat_refusal_number, step_refusal_number};

#[derive(Clone, Copy, Debug, PartialEq)]
pub enum OpenRefusal {
    // Not 1 to 4096 cells.
    Cells = 1,
    // Not 1 to 1024 marks.
    Marks = 2,
    // More than 8 helpers, or a log list too short for them.
    Helpers = 3,
    // A journal of more than 65,536 records.
    Journal = 4,
    // A number that is odd, or 2,147,483,600 or more.
    Number = 5,
    // An amount beyond the limit.
    Amount = 6,
}

impl OpenRefusal {
    pub fn number(self) -> u32
        ensures { result ≡ open_refusal_number self }
    {
        self as u32
    }
}

#[derive(Clone, Copy, Debug, PartialEq)]
pub enum SeatRefusal {
    // No such seat.
    NoSeat = 10,
    // The seat is not idle.
    NotIdle = 11,
    // Not way 0 for the master, or 1 to 3 for a helper.
    NoWay = 12,
    // The body names a cell that the book has not.
    Reach = 13,
    // The number has come to 2,147,483,600.
    Number = 14,
    // Too few records are left.
    Records = 15,
}

impl SeatRefusal {
    pub fn number(self) -> u32
        ensures { result ≡ seat_refusal_number self }
    {
        self as u32
    }
}

#[derive(Clone, Copy, Debug, PartialEq)]
pub enum StepRefusal {
    // No such seat.
    NoSeat = 20,
    // The seat is idle.
    Idle = 21,
    // A list of another length than at open, or an entry of no such cell.
    Lists = 22,
}

impl StepRefusal {
    pub fn number(self) -> u32
        ensures { result ≡ step_refusal_number self }
    {
        self as u32
    }
}

// A pause stands already. One refusal alone has no variants to number.
#[derive(Clone, Copy, Debug, PartialEq)]
pub struct PauseRefusal;

impl PauseRefusal {
    pub fn number(self) -> u32
        ensures { result ≡ pause_refusal_number self }
    {
        30
    }
}
