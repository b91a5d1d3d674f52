// What the listing of a text prints, and the postings of an import one by one.
use imports::Posting;
use listings::listing;
use std::alloc::Global;
use std::process::Abort;
use std::test::Fail;

fn lists(rt: &impl Abort, heap: Global, text: &str, out: &str) -> Result<(), Fail> {
    let listed = listing(heap, text.as_bytes().to_vec(heap)?)?;
    assert!(rt; listed.as_str() == out, "{text}");
    Ok(())
}

#[test]
fn listings_of_texts(rt: HostRuntime) -> Result<(), Fail> {
    let heap = rt.alloc();
    lists(
        &rt,
        heap,
        "H\tDKK\nP\t3\t12.50\nT\t3\t0\t2.50\n",
        "P\t3\t1250\nT\t3\t0\t250\nL\t2\t4\t6\n",
    )?;
    lists(&rt, heap, "H\tDKK\n", "L\t0\t0\t0\n")?;
    lists(
        &rt,
        heap,
        "H\tJPY\nP\t4095\t-7\n",
        "P\t4095\t-7\nL\t1\t4096\t2\n",
    )?;
    lists(
        &rt,
        heap,
        "H\tEUR\nP\t0\t0.00\nP\t0\t-0.01\n",
        "P\t0\t0\nP\t0\t-1\nL\t2\t1\t4\n",
    )?;
    lists(&rt, heap, "", "X\t0\t60\n")?;
    lists(
        &rt,
        heap,
        "H\tDKK\nP\t3\t12.50\nP\t3\t-0.00\n",
        "X\t3\t66\n",
    )
}

#[test]
fn postings_in_order(rt: HostRuntime) -> Result<(), Fail> {
    let heap = rt.alloc();
    let text = b"H\tDKK\nP\t3\t12.50\nT\t3\t0\t-2.50\n".to_vec(heap)?;
    let import = imports::check(text).map_err(|fault| Fail::new(format_args!("{fault}")))?;
    let mut postings = import.postings();
    assert_eq!(rt;
        postings.next(),
        Some(Posting::Post {
            cell: 3,
            amount: 1250,
        })
    );
    assert_eq!(rt;
        postings.next(),
        Some(Posting::Transfer {
            from: 3,
            to: 0,
            amount: -250,
        })
    );
    assert_eq!(rt; postings.next(), None);
    assert_eq!(rt; postings.next(), None);
    Ok(())
}
