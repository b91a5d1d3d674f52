// Where a line stands in the buffer, and what is left beside it.
use super::buffers::{marked, writes};
use journal::{Record, line};
use std::test::Fail;

const JOURNAL: [Record; 3] = [
    Record::Change {
        number: 7,
        cell: 3,
        amount: -1250,
    },
    Record::Change {
        number: 7,
        cell: 0,
        amount: 250,
    },
    Record::Commit {
        number: 7,
        seat: 1,
        kind: 2,
        tag: 40,
        count: 2,
    },
];

const FIRST: &str = "W\t7\t3\t-1250\n";

const SECOND: &str = "W\t7\t0\t250\n";

const THIRD: &str = "C\t7\t1\t2\t40\t2\n";

// Each record, with bytes on neither side, on one side and on both.
#[test]
fn each_record(rt: HostRuntime) -> Result<(), Fail> {
    let heap = rt.alloc();
    for (i, text) in [FIRST, SECOND, THIRD].into_iter().enumerate() {
        for (before, behind) in [(0, 0), (0, 1), (1, 0), (1, 1), (0, 100), (100, 0), (64, 37)] {
            writes(&rt, heap, &JOURNAL, i, text, before, behind)?;
        }
    }
    Ok(())
}

#[test]
fn letters_beside_a_line(rt: HostRuntime) {
    let mut buffer = *b"abcdefghijklmnopqrst";
    assert_eq!(rt; line(&JOURNAL, 1, &mut buffer, 4), Ok(14));
    assert!(rt; buffer == *b"abcdW\t7\t0\t250\nopqrst");
    // A shorter line over a longer one leaves the longer one's rest.
    let mut buffer = *b"W\t7\t3\t-1250\n.";
    assert_eq!(rt; line(&JOURNAL, 1, &mut buffer, 0), Ok(10));
    assert!(rt; buffer == *b"W\t7\t0\t250\n0\n.");
}

#[test]
fn one_after_another(rt: HostRuntime) -> Result<(), Fail> {
    // 12, 10 and 13 bytes
    let mut buffer = marked(rt.alloc(), 35)?;
    let place = line(&JOURNAL, 0, buffer.as_mut_slice(), 0)?;
    assert_eq!(rt; place, 12);
    let place = line(&JOURNAL, 1, buffer.as_mut_slice(), place)?;
    assert_eq!(rt; place, 22);
    let place = line(&JOURNAL, 2, buffer.as_mut_slice(), place)?;
    assert_eq!(rt; place, 35);
    assert!(rt;
        buffer.as_slice() == b"W\t7\t3\t-1250\nW\t7\t0\t250\nC\t7\t1\t2\t40\t2\n".as_slice()
    );
    Ok(())
}

#[test]
fn the_same_record_twice(rt: HostRuntime) -> Result<(), Fail> {
    let mut buffer = *b"........................";
    let place = line(&JOURNAL, 1, &mut buffer, 2)?;
    let place = line(&JOURNAL, 1, &mut buffer, place)?;
    assert_eq!(rt; place, 22);
    assert!(rt; buffer == *b"..W\t7\t0\t250\nW\t7\t0\t250\n..");
    Ok(())
}
