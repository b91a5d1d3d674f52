// Helpers of the ways 2 and 3, which queue before they take the lane.
use super::plans::Turn::{BreaksOff, Commits, GoesOn, Waits};
use super::plans::{
    Chair, FIRST_INTO_SECOND, FIRST_INTO_THIRD, Plan, SECOND_INTO_THIRD, Seat, Tag, Times, Turn,
    Way, play_all,
};
use journal::Record;
use journal::Record::{Change, Commit};
use std::test::Fail;

const FIRST_MADE: Record = Change {
    number: 1,
    cell: 1,
    amount: 10,
};

const SECOND_MADE: Record = Change {
    number: 3,
    cell: 2,
    amount: 10,
};

const FIRST_DONE: Record = Commit {
    number: 1,
    seat: 1,
    kind: 2,
    tag: 21,
    count: 1,
};

const SECOND_DONE: Record = Commit {
    number: 3,
    seat: 2,
    kind: 2,
    tag: 22,
    count: 1,
};

const MASTER_DONE: Record = Commit {
    number: 1,
    seat: 0,
    kind: 2,
    tag: 20,
    count: 1,
};

// Both join, in the order of their seats. The second waits until the first has left, which is a step after its commit. From
// its turn on each waits no more, looks, finds its two entries fresh, swaps, and sets mark and cell.
const ONE_BY_ONE: &[Turn] = &[
    GoesOn(Seat(1), Times(5)),
    GoesOn(Seat(2), Times(5)),
    Waits(Seat(2), Times(2)),
    GoesOn(Seat(1), Times(3)),
    Waits(Seat(2), Times(1)),
    GoesOn(Seat(1), Times(4)),
    Waits(Seat(2), Times(1)),
    Commits(Seat(1), 1),
    Waits(Seat(2), Times(1)),
    GoesOn(Seat(1), Times(1)),
    GoesOn(Seat(2), Times(7)),
    Commits(Seat(2), 3),
    GoesOn(Seat(2), Times(1)),
];

// The second has read the cell that the first writes. It finds this before it takes the lane, leaves the queue, and begins
// anew.
const BEGUN_ANEW: &[Turn] = &[
    GoesOn(Seat(1), Times(5)),
    GoesOn(Seat(2), Times(5)),
    Waits(Seat(2), Times(1)),
    GoesOn(Seat(1), Times(7)),
    Commits(Seat(1), 1),
    GoesOn(Seat(1), Times(1)),
    GoesOn(Seat(2), Times(3)),
    BreaksOff(Seat(2)),
    GoesOn(Seat(2), Times(12)),
    Commits(Seat(2), 3),
    GoesOn(Seat(2), Times(1)),
];

// The master commits between the look and the swap. The swap fails; the helper looks again, and its entries are looked at
// again, after the swap in way 2 and before it in way 3.
const OVERTAKEN: &[Turn] = &[
    GoesOn(Seat(2), Times(9)),
    GoesOn(Seat(0), Times(6)),
    Commits(Seat(0), 1),
    GoesOn(Seat(2), Times(7)),
    Commits(Seat(2), 3),
    GoesOn(Seat(2), Times(1)),
];

const BOTH: &[Record] = &[FIRST_MADE, FIRST_DONE, SECOND_MADE, SECOND_DONE];

const WITH_MASTER: &[Record] = &[FIRST_MADE, MASTER_DONE, SECOND_MADE, SECOND_DONE];

const PLANS: &[Plan] = &[
    Plan {
        words: "ways 2 and 3",
        chairs: &[
            Chair(Seat(1), Way(2), Tag(21), FIRST_INTO_SECOND),
            Chair(Seat(2), Way(3), Tag(22), FIRST_INTO_THIRD),
        ],
        turns: ONE_BY_ONE,
        cells: &[10, 10, 10, 40],
        marks: &[3, 1],
        records: BOTH,
    },
    Plan {
        words: "ways 3 and 2",
        chairs: &[
            Chair(Seat(1), Way(3), Tag(21), FIRST_INTO_SECOND),
            Chair(Seat(2), Way(2), Tag(22), FIRST_INTO_THIRD),
        ],
        turns: ONE_BY_ONE,
        cells: &[10, 10, 10, 40],
        marks: &[3, 1],
        records: BOTH,
    },
    Plan {
        words: "ways 2 and 2",
        chairs: &[
            Chair(Seat(1), Way(2), Tag(21), FIRST_INTO_SECOND),
            Chair(Seat(2), Way(2), Tag(22), FIRST_INTO_THIRD),
        ],
        turns: ONE_BY_ONE,
        cells: &[10, 10, 10, 40],
        marks: &[3, 1],
        records: BOTH,
    },
    Plan {
        words: "ways 3 and 3",
        chairs: &[
            Chair(Seat(1), Way(3), Tag(21), FIRST_INTO_SECOND),
            Chair(Seat(2), Way(3), Tag(22), FIRST_INTO_THIRD),
        ],
        turns: ONE_BY_ONE,
        cells: &[10, 10, 10, 40],
        marks: &[3, 1],
        records: BOTH,
    },
    Plan {
        words: "ways 2 and 3, the second begins anew",
        chairs: &[
            Chair(Seat(1), Way(2), Tag(21), FIRST_INTO_SECOND),
            Chair(Seat(2), Way(3), Tag(22), SECOND_INTO_THIRD),
        ],
        turns: BEGUN_ANEW,
        cells: &[10, 10, 10, 40],
        marks: &[3, 1],
        records: BOTH,
    },
    Plan {
        words: "ways 3 and 2, the second begins anew",
        chairs: &[
            Chair(Seat(1), Way(3), Tag(21), FIRST_INTO_SECOND),
            Chair(Seat(2), Way(2), Tag(22), SECOND_INTO_THIRD),
        ],
        turns: BEGUN_ANEW,
        cells: &[10, 10, 10, 40],
        marks: &[3, 1],
        records: BOTH,
    },
    Plan {
        words: "way 2 and the master",
        chairs: &[
            Chair(Seat(0), Way(0), Tag(20), FIRST_INTO_SECOND),
            Chair(Seat(2), Way(2), Tag(22), FIRST_INTO_THIRD),
        ],
        turns: OVERTAKEN,
        cells: &[10, 10, 10, 40],
        marks: &[3, 1],
        records: WITH_MASTER,
    },
    Plan {
        words: "way 3 and the master",
        chairs: &[
            Chair(Seat(0), Way(0), Tag(20), FIRST_INTO_SECOND),
            Chair(Seat(2), Way(3), Tag(22), FIRST_INTO_THIRD),
        ],
        turns: OVERTAKEN,
        cells: &[10, 10, 10, 40],
        marks: &[3, 1],
        records: WITH_MASTER,
    },
];

#[test]
fn queued(rt: HostRuntime) -> Result<(), Fail> {
    play_all(&rt, rt.alloc(), PLANS)
}
