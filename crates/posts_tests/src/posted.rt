// What is posted for a text: the lines of the journal, or the line of a refusal.
// Handle and heap go side by side: a helper may not take the runtime, and a bound for both would make its vectors generic.
use posts::post;
use std::alloc::Global;
use std::process::Abort;
use std::test::Fail;

fn posts_as(rt: &impl Abort, heap: Global, text: &str, out: &str) -> Result<(), Fail> {
    let posted = post(heap, text.as_bytes().to_vec(heap)?)?;
    assert_eq!(rt; posted.as_str(), out);
    Ok(())
}

#[test]
fn texts(rt: HostRuntime) -> Result<(), Fail> {
    let table = [
        (
            "H\tDKK\nP\t3\t12.50\nT\t3\t0\t2.50\n",
            "W\t1\t3\t1250\nW\t1\t3\t1000\nW\t1\t0\t250\nC\t1\t0\t1\t7\t3\n",
        ),
        // No postings: the commit alone.
        ("H\tDKK\n", "C\t1\t0\t1\t7\t0\n"),
        // The last cell, and one that the book has not.
        ("H\tDKK\nP\t7\t0.01\n", "W\t1\t7\t1\nC\t1\t0\t1\t7\t1\n"),
        ("H\tDKK\nP\t8\t0.01\n", "X\t0\t13\n"),
        // The second line would go beyond the limit, and is left unposted.
        (
            "H\tDKK\nP\t1\t10000000000000.00\nP\t1\t0.01\nP\t2\t-0.01\n",
            "W\t1\t1\t1000000000000000\nW\t1\t2\t-1\nC\t1\t0\t1\t7\t2\n",
        ),
        // Faults of the text.
        ("", "X\t0\t60\n"),
        ("H\tDKK\nP\t3\t12.5\n", "X\t2\t66\n"),
    ];
    for (text, out) in table {
        posts_as(&rt, rt.alloc(), text, out)?;
    }
    Ok(())
}

// 500 posts of nothing to cell 0 have a length of 1,000, and need a record more than there are.
#[test]
fn too_long(rt: HostRuntime) -> Result<(), Fail> {
    let heap = rt.alloc();
    let posts = "P\t0\t0.00\n".repeat(heap, 500)?;
    let text = format!(in heap; "H\tDKK\n{posts}")?;
    posts_as(&rt, heap, text.as_str(), "X\t0\t15\n")
}

// 499 posts have a length of 998, and are booked whole: no longer import of posts is.
#[test]
fn longest(rt: HostRuntime) -> Result<(), Fail> {
    let heap = rt.alloc();
    let posts = "P\t0\t0.00\n".repeat(heap, 499)?;
    let changes = "W\t1\t0\t0\n".repeat(heap, 499)?;
    let text = format!(in heap; "H\tDKK\n{posts}")?;
    let out = format!(in heap; "{changes}C\t1\t0\t1\t7\t499\n")?;
    posts_as(&rt, heap, text.as_str(), out.as_str())
}
