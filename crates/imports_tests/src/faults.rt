// Texts with each refusal at its first and last place, and the texts beside them that are admitted.
use super::texts::{admitted, refused_as};
use imports::Totals;
use std::alloc::Global;
use std::process::Abort;
use std::test::Fail;

// A row is a text, its faulty line and the fault's number, which is what these tables are about.
fn refuse_each(rt: &impl Abort, heap: Global, table: &[(&str, u32, u32)]) -> Result<(), Fail> {
    for (text, line, number) in table.iter().copied() {
        refused_as(rt, heap, text.as_bytes(), line, number, text)?;
    }
    Ok(())
}

#[test]
fn headers(rt: HostRuntime) -> Result<(), Fail> {
    refuse_each(
        &rt,
        rt.alloc(),
        &[
            ("H\tDKK", 1, 61),
            ("\n", 1, 62),
            ("H\n", 1, 62),
            ("H\t\n", 1, 62),
            ("HDKK\n", 1, 62),
            ("H DKK\n", 1, 62),
            ("h\tDKK\n", 1, 62),
            ("H\tDK\n", 1, 62),
            ("H\tDKKK\n", 1, 62),
            ("H\tdkk\n", 1, 62),
            ("H\tDKK\t\n", 1, 62),
            ("H\tDKK\tX\n", 1, 62),
            ("P\t1\t1.00\n", 1, 62),
            ("T\t1\t2\t1.00\n", 1, 62),
            ("\tDKK\n", 1, 62),
            ("HH\tDKK\n", 1, 62),
            // Line 1 is named where it is faulty, whatever follows.
            ("H\tdkk\nP\t1\n", 1, 62),
            ("H\tdkk\nP\t1\t1.00", 1, 62),
        ],
    )
}

#[test]
fn lines(rt: HostRuntime) -> Result<(), Fail> {
    refuse_each(
        &rt,
        rt.alloc(),
        &[
            // Not ended.
            ("H\tDKK\nP\t1\t1.00", 2, 61),
            ("H\tDKK\nP", 2, 61),
            ("H\tDKK\nP\t1\t1.00\nX", 3, 61),
            // Letter or field count: an empty line, a second header, other letters, too few and too many fields.
            ("H\tDKK\n\n", 2, 63),
            ("H\tDKK\nH\tDKK\n", 2, 63),
            ("H\tDKK\nQ\t1\t1.00\n", 2, 63),
            ("H\tDKK\np\t1\t1.00\n", 2, 63),
            ("H\tDKK\nPP\t1\t1.00\n", 2, 63),
            ("H\tDKK\n\t1\t1.00\n", 2, 63),
            ("H\tDKK\nP\n", 2, 63),
            ("H\tDKK\nP\t1\n", 2, 63),
            ("H\tDKK\nP\t1\t2\t1.00\n", 2, 63),
            ("H\tDKK\nP\t1\t1.00\t\n", 2, 63),
            ("H\tDKK\nT\t1\t1.00\n", 2, 63),
            ("H\tDKK\nT\t1\t2\t3\t1.00\n", 2, 63),
            ("H\tDKK\nP\t1\t1.00\n \nP\t1\t1.00\n", 3, 63),
            // Cells.
            ("H\tDKK\nP\t4096\t1.00\n", 2, 64),
            ("H\tDKK\nP\t01\t1.00\n", 2, 64),
            ("H\tDKK\nP\t00\t1.00\n", 2, 64),
            ("H\tDKK\nP\t\t1.00\n", 2, 64),
            ("H\tDKK\nP\t-1\t1.00\n", 2, 64),
            ("H\tDKK\nP\t1.0\t1.00\n", 2, 64),
            ("H\tDKK\nP\t9999999999999999\t1.00\n", 2, 64),
            ("H\tDKK\nT\t4096\t0\t1.00\n", 2, 64),
            ("H\tDKK\nT\t0\t4096\t1.00\n", 2, 64),
            ("H\tDKK\nT\t0\t\t1.00\n", 2, 64),
            // One cell twice.
            ("H\tDKK\nT\t0\t0\t1.00\n", 2, 65),
            ("H\tDKK\nT\t4095\t4095\t1.00\n", 2, 65),
            // Form of the amount, and the limit.
            ("H\tDKK\nP\t1\t\n", 2, 66),
            ("H\tDKK\nP\t1\t-0.00\n", 2, 66),
            ("H\tDKK\nP\t1\t1\n", 2, 66),
            ("H\tJPY\nP\t1\t1.00\n", 2, 66),
            ("H\tDKK\nT\t1\t2\t01.00\n", 2, 66),
            ("H\tDKK\nP\t1\t10000000000000.01\n", 2, 67),
            ("H\tDKK\nT\t1\t2\t-10000000000000.01\n", 2, 67),
            // The only faulty line is named, wherever it stands.
            ("H\tDKK\nP\t1\t1.00\nP\t1\t1.0\nP\t1\t1.00\n", 3, 66),
        ],
    )
}

#[test]
fn first_of_two_faults(rt: HostRuntime) -> Result<(), Fail> {
    refuse_each(
        &rt,
        rt.alloc(),
        &[
            // Not ended, before a bad letter.
            ("H\tDKK\nQ\t1", 2, 61),
            // Field count, before a bad cell.
            ("H\tDKK\nP\t4096\n", 2, 63),
            // A bad cell, before one cell twice, before the amount.
            ("H\tDKK\nT\t4096\t4096\t1.00\n", 2, 64),
            ("H\tDKK\nP\t4096\t1\n", 2, 64),
            ("H\tDKK\nT\t1\t01\tx\n", 2, 64),
            ("H\tDKK\nT\t1\t1\tx\n", 2, 65),
            ("H\tDKK\nT\t1\t1\t10000000000000.01\n", 2, 65),
            // The form, before the limit.
            ("H\tDKK\nP\t1\t010000000000000.01\n", 2, 66),
            ("H\tDKK\nP\t1\t1000000000000000.01\n", 2, 66),
        ],
    )
}

#[test]
fn admits(rt: HostRuntime) -> Result<(), Fail> {
    let heap = rt.alloc();
    admitted(
        &rt,
        heap,
        b"H\tDKK\n",
        Totals {
            count: 0,
            reach: 0,
            length: 0,
        },
    )?;
    admitted(
        &rt,
        heap,
        b"H\tDKK\nP\t0\t0.00\n",
        Totals {
            count: 1,
            reach: 1,
            length: 2,
        },
    )?;
    admitted(
        &rt,
        heap,
        b"H\tDKK\nP\t4095\t-0.01\n",
        Totals {
            count: 1,
            reach: 4096,
            length: 2,
        },
    )?;
    admitted(
        &rt,
        heap,
        b"H\tDKK\nT\t0\t4095\t10000000000000.00\n",
        Totals {
            count: 1,
            reach: 4096,
            length: 4,
        },
    )?;
    admitted(
        &rt,
        heap,
        b"H\tDKK\nT\t4095\t0\t-10000000000000.00\n",
        Totals {
            count: 1,
            reach: 4096,
            length: 4,
        },
    )?;
    admitted(
        &rt,
        heap,
        b"H\tJPY\nP\t7\t999999999999999\nT\t3\t9\t-1\n",
        Totals {
            count: 2,
            reach: 10,
            length: 6,
        },
    )
}
