// The lines of changes and of commits.
use super::buffers::writes_each;
use super::records::{change, commit};
use std::test::Fail;

#[test]
fn changes(rt: HostRuntime) -> Result<(), Fail> {
    let table = [
        (change(0, 0, 0), "W\t0\t0\t0\n"),
        (change(9, 10, 1), "W\t9\t10\t1\n"),
        (change(10, 9, -1), "W\t10\t9\t-1\n"),
        (change(4_294_967_295, 0, 9), "W\t4294967295\t0\t9\n"),
        (change(0, 4_294_967_295, -9), "W\t0\t4294967295\t-9\n"),
        (change(1, 4095, 10), "W\t1\t4095\t10\n"),
        (change(1, 4095, -10), "W\t1\t4095\t-10\n"),
        (change(11, 1, 1), "W\t11\t1\t1\n"),
        (change(1, 11, 1), "W\t1\t11\t1\n"),
        (change(1, 1, 11), "W\t1\t1\t11\n"),
        (change(99, 100, 101), "W\t99\t100\t101\n"),
        (
            change(1, 2, 1_000_000_000_000_000),
            "W\t1\t2\t1000000000000000\n",
        ),
        (
            change(1, 2, -1_000_000_000_000_000),
            "W\t1\t2\t-1000000000000000\n",
        ),
        (
            change(1, 2, 999_999_999_999_999),
            "W\t1\t2\t999999999999999\n",
        ),
        (
            change(3, 4, 9_223_372_036_854_775_807),
            "W\t3\t4\t9223372036854775807\n",
        ),
        (
            change(3, 4, -9_223_372_036_854_775_808),
            "W\t3\t4\t-9223372036854775808\n",
        ),
        // The longest line of a change.
        (
            change(4_294_967_295, 4_294_967_295, -9_223_372_036_854_775_808),
            "W\t4294967295\t4294967295\t-9223372036854775808\n",
        ),
    ];
    writes_each(&rt, rt.alloc(), &table)
}

#[test]
fn commits(rt: HostRuntime) -> Result<(), Fail> {
    let table = [
        (commit(0, 0, 0, 0, 0), "C\t0\t0\t0\t0\t0\n"),
        (commit(1, 2, 3, 4, 5), "C\t1\t2\t3\t4\t5\n"),
        (commit(5, 4, 3, 2, 1), "C\t5\t4\t3\t2\t1\n"),
        (commit(9, 10, 99, 100, 101), "C\t9\t10\t99\t100\t101\n"),
        (commit(10, 0, 0, 0, 0), "C\t10\t0\t0\t0\t0\n"),
        (commit(0, 10, 0, 0, 0), "C\t0\t10\t0\t0\t0\n"),
        (commit(0, 0, 10, 0, 0), "C\t0\t0\t10\t0\t0\n"),
        (commit(0, 0, 0, 10, 0), "C\t0\t0\t0\t10\t0\n"),
        (commit(0, 0, 0, 0, 10), "C\t0\t0\t0\t0\t10\n"),
        (
            commit(4_294_967_295, 9, 9, 9, 9),
            "C\t4294967295\t9\t9\t9\t9\n",
        ),
        (
            commit(9, 4_294_967_295, 9, 9, 9),
            "C\t9\t4294967295\t9\t9\t9\n",
        ),
        (
            commit(9, 9, 4_294_967_295, 9, 9),
            "C\t9\t9\t4294967295\t9\t9\n",
        ),
        (
            commit(9, 9, 9, 4_294_967_295, 9),
            "C\t9\t9\t9\t4294967295\t9\n",
        ),
        (
            commit(9, 9, 9, 9, 4_294_967_295),
            "C\t9\t9\t9\t9\t4294967295\n",
        ),
        // The longest line.
        (
            commit(
                4_294_967_295,
                4_294_967_295,
                4_294_967_295,
                4_294_967_295,
                4_294_967_295,
            ),
            "C\t4294967295\t4294967295\t4294967295\t4294967295\t4294967295\n",
        ),
    ];
    writes_each(&rt, rt.alloc(), &table)
}
